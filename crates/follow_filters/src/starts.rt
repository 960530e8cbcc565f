//! Starts, in which an address, and the starts of its host, are looked up.
ghost use Rattle.std.specs.Prelude.{◌≡◌, IfOk, OnOk, nat_eq};
ghost use Rattle.std.specs.List.{list_any, starts_with};
ghost use Rattle.follow_filters.specs.inner.Starts.{Finds, FindsHosts, FindsOneMore};
ghost use Rattle.follow_filters.specs.Rules.{has_host_of, is_below};

use address::Address;
use std::alloc::{AllocError, Global};
use std::collections::{HashMap, HashSet};
use std::marker::Model;

/// Starts, in their order. Contracts see them as a list.
#[derive(Drop)]
pub struct Starts {
    alloc: Global,
    list: Vec<Address>,
    // The same, to be looked up.
    set: HashSet<Address>,
    // The same by their hosts.
    hosts: HashMap<String, Vec<Address>>,
}

impl Model for Starts {
    ghost use Rattle.std.specs.Prelude.{List, ℕ};
    ghost use Rattle.follow_filters.specs.inner.Starts.{Finds, FindsHosts};

    ghost Value = { List (List ℕ) };

    ghost view = { λ s. s.list.items };

    ghost invariant = { λ s. Finds s.list.items s.set × FindsHosts s.list.items s.hosts };
}

// Whether the text begins with the front.
fn begins(text: &str, front: &str) -> bool
    ensures { result ≡ starts_with nat_eq text.now front.now }
{
    text.as_bytes().starts_with(front.as_bytes())
}

/// Whether the addresses have one host.
pub(crate) fn has_host_of(address: &Address, other: &Address) -> bool
    ensures { result ≡ has_host_of address.now other.now }
{
    address.host() == other.host()
}

/// Whether the address is on the start's host, and its directory is the start's or below it.
pub(crate) fn is_below(address: &Address, start: &Address) -> bool
    ensures { result ≡ is_below address.now start.now }
{
    has_host_of(address, start) && begins(address.dir(), start.dir())
}

// Adds a start to a set.
fn add(set: &mut HashSet<Address>, start: &Address) -> Result<(), AllocError>
    ensures { OnOk result (FindsOneMore start.now set.old set.new) }
{
    set.insert(start.try_clone()?)?;
    Ok(())
}

// The starts as a set.
fn set_of(alloc: Global, list: &[Address]) -> Result<HashSet<Address>, AllocError>
    ensures { IfOk result (Finds list.now) }
{
    let mut set = HashSet::new(alloc);
    for start in list {
        add(&mut set, start)?;
    }
    Ok(set)
}

// The starts by their hosts.
fn hosts_of(alloc: Global, list: &[Address]) -> Result<HashMap<String, Vec<Address>>, AllocError>
    ensures { IfOk result (FindsHosts list.now) }
{
    let mut hosts = HashMap::new(alloc);
    for start in list {
        let host = String::from_str(alloc, start.host())?;
        let copy = start.try_clone()?;
        hosts.entry(host)?.or_insert(Vec::new(alloc)).push(copy)?;
    }
    Ok(hosts)
}

// Whether a start of the list is on the address's host.
fn has_host_of_some(list: &[Address], address: &Address) -> bool
    ensures { result ≡ list_any (λ start. has_host_of address.now start) list.now }
{
    list.iter().any(|start| has_host_of(address, start))
}

// Whether a start of the list is above the address.
fn is_below_some(list: &[Address], address: &Address) -> bool
    ensures { result ≡ list_any (λ start. is_below address.now start) list.now }
{
    list.iter().any(|start| is_below(address, start))
}

impl Starts {
    ghost use Rattle.std.specs.Prelude.{◌≡◌, [], IfOk};
    ghost use Rattle.address.specs.Address.{host_of};
    ghost use Rattle.follow_filters.specs.inner.Starts.{starts_on};
    ghost use Rattle.std.specs.List.{list_any};
    ghost use Rattle.std.specs.Str.{bytes_eq};
    ghost use Rattle.follow_filters.specs.Rules.{has_host_of, is_below};

    /// No starts. Takes no memory.
    pub fn none(alloc: Global) -> Starts
        ensures { result ≡ [] }
    {
        Starts {
            alloc,
            list: Vec::new(alloc),
            set: HashSet::new(alloc),
            hosts: HashMap::new(alloc),
        }
    }

    /// These starts, in their order. Fails only if memory runs out.
    pub fn of(alloc: Global, list: Vec<Address>) -> Result<Starts, AllocError>
        ensures { IfOk result (λ starts. starts ≡ list.items) }
    {
        let set = set_of(alloc, list.as_slice())?;
        let hosts = hosts_of(alloc, list.as_slice())?;
        Ok(Starts {
            alloc,
            list,
            set,
            hosts,
        })
    }

    /// The starts, in their order.
    pub fn as_slice(&self) -> &[Address]
        ensures { result.now ≡ self.now }
    {
        self.list.as_slice()
    }

    /// Whether the address is one of them. Takes no memory.
    pub fn has(&self, address: &Address) -> bool
        ensures { result ≡ list_any (λ one. bytes_eq address.now one) self.now }
    {
        self.set.contains(address)
    }

    // Those on the address's host.
    fn on_host_of(&self, address: &Address) -> &[Address]
        ensures { result.now ≡ starts_on (host_of address.now) self.now }
    {
        match self.hosts.get(address.host()) {
            Some(starts) => starts.as_slice(),
            None => &[],
        }
    }

    /// Whether one of them is on the address's host. Takes no memory.
    pub fn has_host_of(&self, address: &Address) -> bool
        ensures { result ≡ list_any (λ start. has_host_of address.now start) self.now }
    {
        has_host_of_some(self.on_host_of(address), address)
    }

    /// Whether the address is on the host of one of them, and in its directory or below it. Takes no memory.
    pub fn has_above(&self, address: &Address) -> bool
        ensures { result ≡ list_any (λ start. is_below address.now start) self.now }
    {
        is_below_some(self.on_host_of(address), address)
    }

    // The same starts.
    pub(crate) fn try_clone(&self) -> Result<Starts, AllocError>
        ensures { IfOk result (λ copy. copy ≡ self.now) }
    {
        Starts::of(self.alloc, self.list.clone()?)
    }
}

impl PartialEq for Starts {
    ghost use Rattle.std.specs.Cmp.Lexicographic.{pointwise, lists_per, nat_list_eq_equiv};
    ghost use Rattle.std.specs.Cmp.{partial_equiv_from_equiv};
    ghost use Rattle.std.specs.Prelude.{bytes_eq};

    ghost eq = { pointwise bytes_eq };

    ghost laws = { lists_per (partial_equiv_from_equiv nat_list_eq_equiv) };

    fn eq(&self, other: &Starts) -> bool {
        self.as_slice() == other.as_slice()
    }
}
