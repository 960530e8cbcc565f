//! What is written of pages whose links change, byte by byte: in each form of value, in quotes or without. Each link gets `m/` in front, and
//! so does the base.
ghost use Rattle.std.specs.Prelude.{◌++◌, List, ℕ, Option, Some, codes};

use html_links::{Syntax, ValueForm};
use page_links::{PageChange, rewrite, scan};
use std::alloc::{AllocError, Global};
use std::process::Abort;

/// Links to files of the folder `m`.
#[derive(Drop)]
struct Below {
    alloc: Global,
}

impl PageChange for Below {
    ghost becomes = { λ s form text. Some (codes "m/" ++ text) };

    ghost known = { λ s form old new. Unit {0} };

    fn change(&self, _form: ValueForm, text: &str) -> Result<Option<String>, AllocError> {
        let mut other = String::from_str(self.alloc, "m/")?;
        other.push_str(text)?;
        Ok(Some(other))
    }
}

// The page is written so, or stays as it is if it is `-`.
fn expect_anew(rt: &impl Abort, alloc: Global, page: &str, anew: &str) {
    let changes = Below { alloc };
    let body = page.as_bytes();
    let found = scan(alloc, Syntax::Html, body).expect(rt, "memory");
    match rewrite(alloc, &changes, Syntax::Html, body, &found).expect(rt, "memory") {
        Some(other) => assert!(rt; other.as_slice() == anew.as_bytes()),
        None => assert!(rt; anew == "-"),
    }
}

#[test]
fn values_keep_their_quotes(rt: HostRuntime) {
    let alloc = rt.alloc();
    expect_anew(&rt, alloc, "<a href=b>", "<a href=m/b>");
    expect_anew(
        &rt,
        alloc,
        "<A HREF = 'b&amp;c' >",
        "<A HREF = 'm/b&amp;c' >",
    );
    expect_anew(&rt, alloc, "<a href=\"b'c\">", "<a href=\"m/b&#39;c\">");
    expect_anew(&rt, alloc, "<a href=b/>x", "<a href=m/b/>x");
}

#[test]
fn each_form_of_value_is_changed(rt: HostRuntime) {
    let alloc = rt.alloc();
    expect_anew(
        &rt,
        alloc,
        "<img srcset='a 1x,b'>",
        "<img srcset='m/a&#32;1x,m/b'>",
    );
    expect_anew(
        &rt,
        alloc,
        "<p style=\"a:url('b')\">",
        "<p style=\"a:url(&#39;m/b&#39;)\">",
    );
    expect_anew(
        &rt,
        alloc,
        "<style>a{b:url(c)}</style>",
        "<style>a{b:url(m/c)}</style>",
    );
    expect_anew(
        &rt,
        alloc,
        "<meta http-equiv=refresh content='1;url=b'>",
        "<meta http-equiv=refresh content='1;url=m/b'>",
    );
    expect_anew(
        &rt,
        alloc,
        "<form action='b'><q cite=c>",
        "<form action='m/b'><q cite=m/c>",
    );
}

#[test]
fn what_is_no_link_stays(rt: HostRuntime) {
    let alloc = rt.alloc();
    expect_anew(&rt, alloc, "<!-- <a href=b> -->", "<!-- <a href=b> -->");
    expect_anew(
        &rt,
        alloc,
        "<script>'<a href=b>'</script>",
        "<script>'<a href=b>'</script>",
    );
    expect_anew(
        &rt,
        alloc,
        "<a title='<a href=b>'>",
        "<a title='<a href=b>'>",
    );
    expect_anew(&rt, alloc, "<a href=b href=c>", "<a href=m/b href=c>");
    expect_anew(
        &rt,
        alloc,
        "<link href=b rel=preconnect><a href=c",
        "<link href=b rel=preconnect><a href=c",
    );
}

#[test]
fn the_base_and_what_later_attributes_decide_are_changed(rt: HostRuntime) {
    let alloc = rt.alloc();
    expect_anew(
        &rt,
        alloc,
        "<base href=b><input src=c type=image>",
        "<base href=m/b><input src=m/c type=image>",
    );
    expect_anew(
        &rt,
        alloc,
        "<meta content='1;url=b' http-equiv=refresh>",
        "<meta content='1;url=m/b' http-equiv=refresh>",
    );
}

#[test]
fn a_page_with_a_link_without_a_value_stays(rt: HostRuntime) {
    expect_anew(&rt, rt.alloc(), "<a href=b><a href>", "-");
}
