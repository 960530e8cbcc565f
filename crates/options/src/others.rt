//! The starts besides the first.
ghost use Rattle.std.specs.Prelude.{◌≡◌, ◌⊎◌, ◌++◌, [], Err, List, MatchResult, Ok, false, is_some, map, ℕ};
ghost use Rattle.std.specs.List.{list_any};
ghost use Rattle.address.specs.Address.{is_robots_file};
ghost use Rattle.options.specs.declared.fault.LineFault.TheVariants as fault;
ghost use Rattle.options.specs.Asked.{without_kind};
ghost use Rattle.options.specs.Order.{AnswersOrder, besides, ordered_by, starts_after, with_others};

use crate::fault::LineFault;
use crate::order::Order;
use crate::start_page::read_page;
use address::Address;
use clap::error::ErrorKind;
use follow_filters::Starts;
use std::alloc::Global;

// The starts that these texts name, or what is wrong with the first that is none. Of these https is one if a proxy is given.
fn read_starts(alloc: Global, by_proxy: bool, texts: &[&str]) -> Result<Vec<Address>, LineFault>
    ensures { MatchResult result
        (λ starts. (starts_after [] by_proxy (map (λ text. text.now) texts.now) ≡ Ok starts.items) × (list_any is_robots_file starts.items ≡ false))
        (λ f. ((without_kind f ≡ f) × (starts_after [] by_proxy (map (λ text. text.now) texts.now) ≡ Err f)) ⊎ (f ≡ fault.Memory)) }
{
    let mut starts = Vec::new(alloc);
    for text in texts {
        let start = match read_page(alloc, by_proxy, text) {
            Ok(start) => start,
            Err(fault) => {
                drop(starts);
                return Err(fault);
            }
        };
        let Ok(()) = starts.push(start) else {
            return Err(LineFault::Memory);
        };
    }
    Ok(starts)
}

// The order with these starts besides its own, if it may hold as many addresses.
fn besides(alloc: Global, order: Order, others: Vec<Address>) -> Result<Order, LineFault>
    requires { list_any is_robots_file others.items ≡ false }
    ensures { AnswersOrder result (besides (ordered_by order) others.items) }
{
    if others.len() >= order.plan.max_urls as usize {
        drop(order);
        drop(others);
        return Err(LineFault::Words(ErrorKind::InvalidValue));
    }
    match Starts::of(alloc, others) {
        Ok(others) => Ok(order.with_others(others)),
        Err(_) => {
            drop(order);
            Err(LineFault::Memory)
        }
    }
}

/// The order with the starts that these texts name besides its own.
pub(crate) fn with_others(alloc: Global, order: Order, texts: &[&str]) -> Result<Order, LineFault>
    ensures { AnswersOrder result (with_others (map (λ text. text.now) texts.now) (Ok (ordered_by order))) }
{
    match read_starts(alloc, order.proxies.https().is_some(), texts) {
        Ok(others) => besides(alloc, order, others),
        Err(fault) => {
            drop(order);
            Err(fault)
        }
    }
}
