//! What is written from file to file, as a browser reads it.
use local_links::relative;

// Each line: a file, another, and the reference.
const ROWS: &str = "h/a h/b b
h/a h/a a
h/d/e/a h/b ../../b
h/a h/d/e/b d/e/b
h/d/a h/e/b ../e/b
h/d/a g/d/a ../../g/d/a
h/a h/b?x=1&y#z%20 b%3Fx%3D1%26y%23z%2520
h/a h/a:b-c._~é a%3Ab-c._~%C3%A9";

#[test]
fn names_become_references(rt: HostRuntime) {
    for row in ROWS.lines() {
        let mut words = row.split(' ');
        let from = words.next().expect(&rt, "a file");
        let to = words.next().expect(&rt, "another");
        let text = relative(rt.alloc(), from, to).expect(&rt, "memory");
        assert!(rt; Some(text.as_str()) == words.next());
    }
}
