//! What links become, as a browser reads them.
ghost use Rattle.std.specs.Prelude.{Some, None, bytes_eq, string_bytes, if◌then◌else◌};

use address::Address;
use link_changes::{Form, Links, Mirror};
use std::alloc::Global;
use std::process::Abort;

// A mirror of one page, to which another address redirects.
#[derive(Drop)]
struct OnePage {
    page: Address,
    name: String,
    moved: Address,
}

impl Mirror for OnePage {
    ghost name_of = { λ mirror address. if bytes_eq mirror.page address then Some (string_bytes mirror.name) else None };

    ghost target_of = { λ mirror address. if bytes_eq mirror.moved address then Some mirror.page else None };

    fn name(&self, address: &Address) -> Option<&str> {
        if self.page == *address {
            Some(self.name.as_str())
        } else {
            None
        }
    }

    fn target(&self, address: &Address) -> Option<&Address> {
        if self.moved == *address {
            Some(&self.page)
        } else {
            None
        }
    }
}

// Each line: the file, the base, the form, the text of a link, and what is written for it; `-` if it stays. `http://h/d/b?x=1` is
// kept as `h/d/b?x=1`, and `http://h/old` redirects to it.
const ROWS: &str = "h/d/a http://h/d/a Value b?x=1 b%3Fx%3D1
h/d/a http://h/d/a Value b?x=1#f b%3Fx%3D1#f
h/d/a http://h/d/a Value b?x=1# b%3Fx%3D1#
h/d/a http://h/d/a Value /old#f b%3Fx%3D1#f
h/a http://h/a Value d/b?x=1 d/b%3Fx%3D1
h/e/f/a http://h/e/f/a Value /d/b?x=1 ../../d/b%3Fx%3D1
h/d/a http://h/d/a Value c#f http://h/d/c#f
h/d/a http://h/d/a Value //g/x http://g/x
h/a http://h/d/ Value b?x=1 d/b%3Fx%3D1
h/a http://h/d/ Value c http://h/d/c
h/d/a http://h/d/a Value mailto:a@b -
h/d/a http://h/d/a Value https://h/d/b?x=1 -
h/d/a http://h/d/a Value HTTP://h/./c -
h/d/a http://h/d/a Value Http://h/d/b?x=1#f b%3Fx%3D1#f
h/d/a http://h/d/a Value http:c http://h/d/c
h/d/a http://h/d/a Value http://[ -
h/d/b?x=1 http://h/d/b?x=1 Value #x -
h/d/b?x=1 http://h/d/b?x=1 Value #<é #%3C%C3%A9
h/d/b?x=1 http://h/d/b?x=1 Value b?x=1#x b%3Fx%3D1#x
h/d/b?x=1 http://h/e/ Value #x http://h/e/#x
h/d/b?x=1 http://h/e/ Sheet #x -
h/d/a http://h/d/a Set c,#f, -
h/d/a http://h/d/a Refresh it's -
h/d/a http://h/d/a Refresh /old b%3Fx%3D1";

fn form_of(word: &str) -> Form {
    match word {
        "Value" => Form::Value,
        "Sheet" => Form::Sheet,
        "Set" => Form::Set,
        _ => Form::Refresh,
    }
}

fn address(rt: &impl Abort, alloc: Global, text: &str) -> Address {
    Address::read(alloc, text).expect(rt, "an address")
}

#[test]
fn links_lead_where_they_led(rt: HostRuntime) {
    let mirror = OnePage {
        page: address(&rt, rt.alloc(), "http://h/d/b?x=1"),
        name: String::from_str(rt.alloc(), "h/d/b?x=1").expect(&rt, "memory"),
        moved: address(&rt, rt.alloc(), "http://h/old"),
    };
    for row in ROWS.lines() {
        let mut words = row.split(' ');
        let file = words.next().expect(&rt, "a file");
        let base = address(&rt, rt.alloc(), words.next().expect(&rt, "a base"));
        let form = form_of(words.next().expect(&rt, "a form"));
        let text = words.next().expect(&rt, "a text");
        let links = Links::new(rt.alloc(), &mirror, file, &base, form);
        let new = links.becomes(text).expect(&rt, "memory");
        assert!(rt; new.as_deref().unwrap_or("-") == words.next().expect(&rt, "a result"));
    }
}
