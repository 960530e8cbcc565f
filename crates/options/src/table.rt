//! The table of options, a row for each: the command that `clap` reads, the help and the advice on refused words are made
//! of it; and the forms of Wget's options, among which fronts are read, and the commands of wgetrc (GNU Wget manual, chapters
//! Invoking and Startup File).
ghost use Rattle.std.specs.Prelude.{◌≡◌, map};
ghost use Rattle.options.specs.Table.{commands, instead, own, table, wget};
ghost use Rattle.options.specs.inner.Table.{command_in, instead_in, row_in};

use crate::order::{DEFAULT_MAX_URLS, DEFAULT_PER_HOST, DEFAULT_WORKERS, MAX_WORKERS};
use follow_filters::{MAX_PER_HOST, MAX_URLS};

/// What follows an option.
pub(crate) enum OptionKind<T> {
    /// Nothing: the option is on or off.
    Flag,
    /// No value, and what it requests is so already: it is accepted, and its opposite isn't.
    Holds,
    /// Nothing: it is the opposite of the option of this name, and the two are one option.
    Opposite(T),
    /// A value, of this name in the help.
    Value(T),
    /// A list of this name in the help: several of them add up, and an empty one clears what was before it.
    List(T),
    /// A value of this name, and its default.
    Usual(T, T),
    /// A whole number from 1 to the first of these, and its default.
    Number(u32, u32),
}

/// An option. The type of its texts is a parameter, since definitions can cite a constant of such a type, and none with a
/// reference of its own.
pub(crate) struct Row<T> {
    /// Its short form, such as `l`, or nothing. One of two letters (`np`) is the first letter's option with the second
    /// as its value.
    pub short: T,
    /// The name by which its value is found, and its long form (`level`); a name that is the short form is no long form.
    pub name: T,
    pub kind: OptionKind<T>,
    /// What is above it in the help, if it is the first of a group.
    pub heading: T,
}

/// The options. What each does is in `summary.rt`: a constant's proof takes time for each pair of a text and a byte in it.
const TABLE: [Row<&str>; 103] = [
    Row {
        short: "r",
        name: "recursive",
        kind: OptionKind::Flag,
        heading: "\nWhat is followed:\n",
    },
    Row {
        short: "l",
        name: "level",
        kind: OptionKind::Usual("N", "5"),
        heading: "",
    },
    Row {
        short: "m",
        name: "mirror",
        kind: OptionKind::Flag,
        heading: "",
    },
    Row {
        short: "p",
        name: "page-requisites",
        kind: OptionKind::Flag,
        heading: "",
    },
    Row {
        short: "",
        name: "span-requisites",
        kind: OptionKind::Flag,
        heading: "",
    },
    Row {
        short: "n",
        name: "n",
        kind: OptionKind::Value("p"),
        heading: "",
    },
    Row {
        short: "np",
        name: "no-parent",
        kind: OptionKind::Flag,
        heading: "",
    },
    Row {
        short: "H",
        name: "span-hosts",
        kind: OptionKind::Flag,
        heading: "",
    },
    Row {
        short: "D",
        name: "domains",
        kind: OptionKind::List("LIST"),
        heading: "",
    },
    Row {
        short: "",
        name: "exclude-domains",
        kind: OptionKind::List("LIST"),
        heading: "",
    },
    Row {
        short: "I",
        name: "include-directories",
        kind: OptionKind::List("LIST"),
        heading: "",
    },
    Row {
        short: "X",
        name: "exclude-directories",
        kind: OptionKind::List("LIST"),
        heading: "",
    },
    Row {
        short: "A",
        name: "accept",
        kind: OptionKind::List("LIST"),
        heading: "",
    },
    Row {
        short: "R",
        name: "reject",
        kind: OptionKind::List("LIST"),
        heading: "",
    },
    Row {
        short: "",
        name: "accept-regex",
        kind: OptionKind::Value("REGEX"),
        heading: "",
    },
    Row {
        short: "",
        name: "reject-regex",
        kind: OptionKind::Value("REGEX"),
        heading: "",
    },
    Row {
        short: "",
        name: "ignore-case",
        kind: OptionKind::Flag,
        heading: "",
    },
    Row {
        short: "L",
        name: "relative",
        kind: OptionKind::Flag,
        heading: "",
    },
    Row {
        short: "",
        name: "follow-tags",
        kind: OptionKind::List("LIST"),
        heading: "",
    },
    Row {
        short: "",
        name: "ignore-tags",
        kind: OptionKind::List("LIST"),
        heading: "",
    },
    Row {
        short: "e",
        name: "execute",
        kind: OptionKind::Value("COMMAND"),
        heading: "\nHow it is asked for:\n",
    },
    Row {
        short: "",
        name: "no-robots",
        kind: OptionKind::Flag,
        heading: "",
    },
    Row {
        short: "",
        name: "workers",
        kind: OptionKind::Number(MAX_WORKERS, DEFAULT_WORKERS),
        heading: "",
    },
    Row {
        short: "",
        name: "per-host",
        kind: OptionKind::Number(MAX_PER_HOST, DEFAULT_PER_HOST),
        heading: "",
    },
    Row {
        short: "",
        name: "no-http-keep-alive",
        kind: OptionKind::Flag,
        heading: "",
    },
    Row {
        short: "U",
        name: "user-agent",
        kind: OptionKind::Value("AGENT"),
        heading: "",
    },
    Row {
        short: "",
        name: "header",
        kind: OptionKind::List("LINE"),
        heading: "",
    },
    Row {
        short: "",
        name: "referer",
        kind: OptionKind::Value("URL"),
        heading: "",
    },
    Row {
        short: "",
        name: "no-cache",
        kind: OptionKind::Flag,
        heading: "",
    },
    Row {
        short: "",
        name: "user",
        kind: OptionKind::Value("USER"),
        heading: "",
    },
    Row {
        short: "",
        name: "password",
        kind: OptionKind::Value("PASSWORD"),
        heading: "",
    },
    Row {
        short: "",
        name: "http-user",
        kind: OptionKind::Value("USER"),
        heading: "",
    },
    Row {
        short: "",
        name: "http-password",
        kind: OptionKind::Value("PASSWORD"),
        heading: "",
    },
    Row {
        short: "",
        name: "auth-no-challenge",
        kind: OptionKind::Flag,
        heading: "",
    },
    Row {
        short: "",
        name: "load-cookies",
        kind: OptionKind::Value("FILE"),
        heading: "",
    },
    Row {
        short: "w",
        name: "wait",
        kind: OptionKind::Value("S"),
        heading: "",
    },
    Row {
        short: "",
        name: "random-wait",
        kind: OptionKind::Flag,
        heading: "",
    },
    Row {
        short: "",
        name: "crawl-delay",
        kind: OptionKind::Flag,
        heading: "",
    },
    Row {
        short: "t",
        name: "tries",
        kind: OptionKind::Usual("N", "1"),
        heading: "",
    },
    Row {
        short: "",
        name: "waitretry",
        kind: OptionKind::Usual("S", "10"),
        heading: "",
    },
    Row {
        short: "",
        name: "retry-connrefused",
        kind: OptionKind::Flag,
        heading: "",
    },
    Row {
        short: "",
        name: "retry-on-host-error",
        kind: OptionKind::Flag,
        heading: "",
    },
    Row {
        short: "",
        name: "retry-on-http-error",
        kind: OptionKind::List("LIST"),
        heading: "",
    },
    Row {
        short: "T",
        name: "timeout",
        kind: OptionKind::Value("S"),
        heading: "",
    },
    Row {
        short: "",
        name: "dns-timeout",
        kind: OptionKind::Value("S"),
        heading: "",
    },
    Row {
        short: "",
        name: "connect-timeout",
        kind: OptionKind::Value("S"),
        heading: "",
    },
    Row {
        short: "",
        name: "read-timeout",
        kind: OptionKind::Usual("S", "900"),
        heading: "",
    },
    Row {
        short: "",
        name: "answer-timeout",
        kind: OptionKind::Value("S"),
        heading: "",
    },
    Row {
        short: "",
        name: "max-body",
        kind: OptionKind::Usual("BYTES", "1024g"),
        heading: "",
    },
    Row {
        short: "",
        name: "limit-rate",
        kind: OptionKind::Value("R"),
        heading: "",
    },
    Row {
        short: "Q",
        name: "quota",
        kind: OptionKind::Value("N"),
        heading: "",
    },
    Row {
        short: "4",
        name: "inet4-only",
        kind: OptionKind::Flag,
        heading: "",
    },
    Row {
        short: "6",
        name: "inet6-only",
        kind: OptionKind::Flag,
        heading: "",
    },
    Row {
        short: "",
        name: "https-proxy",
        kind: OptionKind::Value("URL"),
        heading: "",
    },
    Row {
        short: "",
        name: "trust-proxy",
        kind: OptionKind::Flag,
        heading: "",
    },
    Row {
        short: "",
        name: "http-proxy",
        kind: OptionKind::Value("URL"),
        heading: "",
    },
    Row {
        short: "",
        name: "without-proxy",
        kind: OptionKind::List("LIST"),
        heading: "",
    },
    Row {
        short: "",
        name: "no-proxy",
        kind: OptionKind::Flag,
        heading: "",
    },
    Row {
        short: "",
        name: "max-urls",
        kind: OptionKind::Number(MAX_URLS, DEFAULT_MAX_URLS),
        heading: "",
    },
    Row {
        short: "",
        name: "map",
        kind: OptionKind::Flag,
        heading: "\nWhere the site is:\n",
    },
    Row {
        short: "",
        name: "record",
        kind: OptionKind::Flag,
        heading: "",
    },
    Row {
        short: "",
        name: "resume",
        kind: OptionKind::Value("FILE"),
        heading: "",
    },
    Row {
        short: "",
        name: "retry-failed",
        kind: OptionKind::Flag,
        heading: "",
    },
    Row {
        short: "i",
        name: "input-file",
        kind: OptionKind::Value("FILE"),
        heading: "",
    },
    Row {
        short: "F",
        name: "force-html",
        kind: OptionKind::Flag,
        heading: "",
    },
    Row {
        short: "B",
        name: "base",
        kind: OptionKind::Value("URL"),
        heading: "",
    },
    Row {
        short: "P",
        name: "directory-prefix",
        kind: OptionKind::Usual("DIR", "."),
        heading: "\nWhat becomes of it:\n",
    },
    Row {
        short: "nd",
        name: "no-directories",
        kind: OptionKind::Flag,
        heading: "",
    },
    Row {
        short: "x",
        name: "force-directories",
        kind: OptionKind::Opposite("no-directories"),
        heading: "",
    },
    Row {
        short: "nH",
        name: "no-host-directories",
        kind: OptionKind::Flag,
        heading: "",
    },
    Row {
        short: "",
        name: "protocol-directories",
        kind: OptionKind::Flag,
        heading: "",
    },
    Row {
        short: "",
        name: "cut-dirs",
        kind: OptionKind::Usual("N", "0"),
        heading: "",
    },
    Row {
        short: "",
        name: "default-page",
        kind: OptionKind::Usual("NAME", "index.html"),
        heading: "",
    },
    Row {
        short: "E",
        name: "adjust-extension",
        kind: OptionKind::Flag,
        heading: "",
    },
    Row {
        short: "",
        name: "html-extension",
        kind: OptionKind::Flag,
        heading: "",
    },
    Row {
        short: "",
        name: "restrict-file-names",
        kind: OptionKind::List("MODES"),
        heading: "",
    },
    Row {
        short: "k",
        name: "convert-links",
        kind: OptionKind::Flag,
        heading: "",
    },
    Row {
        short: "K",
        name: "backup-converted",
        kind: OptionKind::Flag,
        heading: "",
    },
    Row {
        short: "N",
        name: "timestamping",
        kind: OptionKind::Flag,
        heading: "",
    },
    Row {
        short: "nc",
        name: "no-clobber",
        kind: OptionKind::Flag,
        heading: "",
    },
    Row {
        short: "c",
        name: "continue",
        kind: OptionKind::Flag,
        heading: "",
    },
    Row {
        short: "",
        name: "delete-gone",
        kind: OptionKind::Flag,
        heading: "",
    },
    Row {
        short: "",
        name: "no-use-server-timestamps",
        kind: OptionKind::Flag,
        heading: "",
    },
    Row {
        short: "q",
        name: "quiet",
        kind: OptionKind::Flag,
        heading: "",
    },
    Row {
        short: "o",
        name: "output-file",
        kind: OptionKind::Value("FILE"),
        heading: "",
    },
    Row {
        short: "a",
        name: "append-output",
        kind: OptionKind::Value("FILE"),
        heading: "",
    },
    Row {
        short: "",
        name: "rejected-log",
        kind: OptionKind::Value("FILE"),
        heading: "",
    },
    Row {
        short: "",
        name: "trace",
        kind: OptionKind::Flag,
        heading: "",
    },
    Row {
        short: "",
        name: "save",
        kind: OptionKind::Value("FILE"),
        heading: "",
    },
    Row {
        short: "nv",
        name: "no-verbose",
        kind: OptionKind::Holds,
        heading: "\nTaken, since it is so already:\n",
    },
    Row {
        short: "",
        name: "no-cookies",
        kind: OptionKind::Holds,
        heading: "",
    },
    Row {
        short: "",
        name: "no-hsts",
        kind: OptionKind::Holds,
        heading: "",
    },
    Row {
        short: "",
        name: "no-config",
        kind: OptionKind::Holds,
        heading: "",
    },
    Row {
        short: "",
        name: "no-netrc",
        kind: OptionKind::Holds,
        heading: "",
    },
    Row {
        short: "",
        name: "unlink",
        kind: OptionKind::Holds,
        heading: "",
    },
    Row {
        short: "",
        name: "no-remove-listing",
        kind: OptionKind::Holds,
        heading: "",
    },
    Row {
        short: "",
        name: "show-progress",
        kind: OptionKind::Holds,
        heading: "",
    },
    Row {
        short: "",
        name: "no-xattr",
        kind: OptionKind::Holds,
        heading: "",
    },
    Row {
        short: "",
        name: "no-strict-comments",
        kind: OptionKind::Holds,
        heading: "",
    },
    Row {
        short: "",
        name: "no-follow-ftp",
        kind: OptionKind::Holds,
        heading: "",
    },
    Row {
        short: "",
        name: "progress",
        kind: OptionKind::Value("TYPE"),
        heading: "",
    },
    Row {
        short: "",
        name: "compression",
        kind: OptionKind::Value("none"),
        heading: "",
    },
    Row {
        short: "",
        name: "regex-type",
        kind: OptionKind::Value("TYPE"),
        heading: "",
    },
];

const ROWS: &[Row<&str>] = &TABLE;

/// The options. Nothing else names the constant, since what names it is proved with each of its rows.
pub(crate) fn option_rows() -> &'static [Row<&'static str>]
    ensures { map row_in result.now ≡ table }
{
    ROWS
}

/// The forms of Wget's options: all long ones, in the order of their letters, and the short ones that aren't among the options
/// above.
const WGET: [&str; 244] = [
    "--accept",
    "--accept-regex",
    "--adjust-extension",
    "--append-output",
    "--ask-password",
    "--auth-no-challenge",
    "--background",
    "--backup-converted",
    "--backups",
    "--base",
    "--bind-address",
    "--body-data",
    "--body-file",
    "--ca-certificate",
    "--ca-directory",
    "--cache",
    "--certificate",
    "--certificate-type",
    "--check-certificate",
    "--ciphers",
    "--clobber",
    "--compression",
    "--config",
    "--connect-timeout",
    "--content-disposition",
    "--content-on-error",
    "--continue",
    "--convert-file-only",
    "--convert-links",
    "--cookies",
    "--crl-file",
    "--cut-dirs",
    "--debug",
    "--default-page",
    "--delete-after",
    "--directories",
    "--directory-prefix",
    "--dns-cache",
    "--dns-timeout",
    "--domains",
    "--dont-remove-listing",
    "--dot-style",
    "--egd-file",
    "--exclude-directories",
    "--exclude-domains",
    "--execute",
    "--follow-ftp",
    "--follow-tags",
    "--force-directories",
    "--force-html",
    "--ftp-password",
    "--ftp-user",
    "--ftps-clear-data-connection",
    "--ftps-fallback-to-ftp",
    "--ftps-implicit",
    "--ftps-resume-ssl",
    "--glob",
    "--header",
    "--help",
    "--host-directories",
    "--hsts",
    "--hsts-file",
    "--html-extension",
    "--htmlify",
    "--http-keep-alive",
    "--http-passwd",
    "--http-password",
    "--http-user",
    "--https-only",
    "--if-modified-since",
    "--ignore-case",
    "--ignore-length",
    "--ignore-tags",
    "--include-directories",
    "--inet4-only",
    "--inet6-only",
    "--input-file",
    "--iri",
    "--keep-badhash",
    "--keep-session-cookies",
    "--level",
    "--limit-rate",
    "--load-cookies",
    "--local-encoding",
    "--max-redirect",
    "--method",
    "--mirror",
    "--netrc",
    "--no",
    "--no-adjust-extension",
    "--no-ask-password",
    "--no-auth-no-challenge",
    "--no-background",
    "--no-backup-converted",
    "--no-backups",
    "--no-cache",
    "--no-check-certificate",
    "--no-clobber",
    "--no-config",
    "--no-content-disposition",
    "--no-content-on-error",
    "--no-continue",
    "--no-convert-file-only",
    "--no-convert-links",
    "--no-cookies",
    "--no-debug",
    "--no-delete-after",
    "--no-directories",
    "--no-dns-cache",
    "--no-follow-ftp",
    "--no-force-directories",
    "--no-force-html",
    "--no-ftps-clear-data-connection",
    "--no-ftps-fallback-to-ftp",
    "--no-ftps-implicit",
    "--no-ftps-resume-ssl",
    "--no-glob",
    "--no-host-directories",
    "--no-hsts",
    "--no-html-extension",
    "--no-htmlify",
    "--no-http-keep-alive",
    "--no-https-only",
    "--no-if-modified-since",
    "--no-ignore-case",
    "--no-ignore-length",
    "--no-inet4-only",
    "--no-inet6-only",
    "--no-iri",
    "--no-keep-badhash",
    "--no-keep-session-cookies",
    "--no-mirror",
    "--no-netrc",
    "--no-no-clobber",
    "--no-no-config",
    "--no-no-parent",
    "--no-page-requisites",
    "--no-parent",
    "--no-passive-ftp",
    "--no-preserve-permissions",
    "--no-protocol-directories",
    "--no-proxy",
    "--no-quiet",
    "--no-random-wait",
    "--no-recursive",
    "--no-relative",
    "--no-remove-listing",
    "--no-report-speed",
    "--no-restrict-file-names",
    "--no-retr-symlinks",
    "--no-retry-connrefused",
    "--no-retry-on-host-error",
    "--no-save-headers",
    "--no-server-response",
    "--no-show-progress",
    "--no-span-hosts",
    "--no-spider",
    "--no-strict-comments",
    "--no-timestamping",
    "--no-trust-server-names",
    "--no-unlink",
    "--no-use-server-timestamps",
    "--no-verbose",
    "--no-warc-cdx",
    "--no-warc-compression",
    "--no-warc-digests",
    "--no-warc-keep-log",
    "--no-xattr",
    "--output-document",
    "--output-file",
    "--page-requisites",
    "--parent",
    "--passive-ftp",
    "--password",
    "--pinnedpubkey",
    "--post-data",
    "--post-file",
    "--prefer-family",
    "--preserve-permissions",
    "--private-key",
    "--private-key-type",
    "--progress",
    "--protocol-directories",
    "--proxy",
    "--proxy-passwd",
    "--proxy-password",
    "--proxy-user",
    "--quiet",
    "--quota",
    "--random-file",
    "--random-wait",
    "--read-timeout",
    "--recursive",
    "--referer",
    "--regex-type",
    "--reject",
    "--reject-regex",
    "--rejected-log",
    "--relative",
    "--remote-encoding",
    "--remove-listing",
    "--report-speed",
    "--restrict-file-names",
    "--retr-symlinks",
    "--retry-connrefused",
    "--retry-on-host-error",
    "--retry-on-http-error",
    "--save-cookies",
    "--save-headers",
    "--secure-protocol",
    "--server-response",
    "--show-progress",
    "--span-hosts",
    "--spider",
    "--start-pos",
    "--strict-comments",
    "--timeout",
    "--timestamping",
    "--tries",
    "--trust-server-names",
    "--unlink",
    "--use-askpass",
    "--use-server-timestamps",
    "--user",
    "--user-agent",
    "--verbose",
    "--version",
    "--wait",
    "--waitretry",
    "--warc-cdx",
    "--warc-compression",
    "--warc-dedup",
    "--warc-digests",
    "--warc-file",
    "--warc-header",
    "--warc-keep-log",
    "--warc-max-size",
    "--warc-tempdir",
    "--xattr",
    "-b",
    "-d",
    "-v",
    "-O",
    "-S",
];

const WGETS: &[&str] = &WGET;

/// The forms of Wget's options.
pub(crate) fn wget_forms() -> &'static [&'static str]
    ensures { map (λ form. form.now) result.now ≡ wget }
{
    WGETS
}

/// What to do instead of an option of Wget that isn't here. The type of its texts is a parameter, like that of a row's.
pub(crate) struct Instead<T> {
    /// The option's form, one of those above.
    pub form: T,
    /// What to do, for a person.
    pub advice: T,
}

/// What to do in place of Wget's options, if there is something. None of these forms is read.
const INSTEAD: [Instead<&str>; 59] = [
    Instead {
        form: "--background",
        advice: "& of the shell, or nohup",
    },
    Instead {
        form: "-b",
        advice: "& of the shell, or nohup",
    },
    Instead {
        form: "--debug",
        advice: "--trace has each step",
    },
    Instead {
        form: "-d",
        advice: "--trace has each step",
    },
    Instead {
        form: "--verbose",
        advice: "--trace has each step",
    },
    Instead {
        form: "-v",
        advice: "--trace has each step",
    },
    Instead {
        form: "--config",
        advice: "-e has the commands of wgetrc",
    },
    Instead {
        form: "--output-document",
        advice: "-P DIR says where files are put",
    },
    Instead {
        form: "-O",
        advice: "-P DIR says where files are put",
    },
    Instead {
        form: "--no-if-modified-since",
        advice: "no HEAD is sent: with -N each request has its condition",
    },
    Instead {
        form: "--server-response",
        advice: "--save FILE has the fields of each response",
    },
    Instead {
        form: "-S",
        advice: "--save FILE has the fields of each response",
    },
    Instead {
        form: "--save-headers",
        advice: "--save FILE has the fields of each response",
    },
    Instead {
        form: "--spider",
        advice: "the report has the status of each address",
    },
    Instead {
        form: "--delete-after",
        advice: "-P DIR, and remove DIR afterwards",
    },
    Instead {
        form: "--bind-address",
        advice: "src of ip route sets the address that requests come from",
    },
    Instead {
        form: "--prefer-family",
        advice: "-4 or -6 connects to addresses of one family alone",
    },
    Instead {
        form: "--max-redirect",
        advice: "redirects are followed without limit, if filters let them",
    },
    Instead {
        form: "--trust-server-names",
        advice: "it is so already: files are named by where redirects lead",
    },
    Instead {
        form: "--post-data",
        advice: "only GET is sent",
    },
    Instead {
        form: "--post-file",
        advice: "only GET is sent",
    },
    Instead {
        form: "--method",
        advice: "only GET is sent",
    },
    Instead {
        form: "--body-data",
        advice: "only GET is sent",
    },
    Instead {
        form: "--body-file",
        advice: "only GET is sent",
    },
    Instead {
        form: "--no-check-certificate",
        advice: "the proxy of --https-proxy speaks TLS, docs/HTTPS.md",
    },
    Instead {
        form: "--check-certificate",
        advice: "the proxy of --https-proxy speaks TLS, docs/HTTPS.md",
    },
    Instead {
        form: "--ca-certificate",
        advice: "the proxy of --https-proxy speaks TLS, docs/HTTPS.md",
    },
    Instead {
        form: "--ca-directory",
        advice: "the proxy of --https-proxy speaks TLS, docs/HTTPS.md",
    },
    Instead {
        form: "--certificate",
        advice: "the proxy of --https-proxy speaks TLS, docs/HTTPS.md",
    },
    Instead {
        form: "--certificate-type",
        advice: "the proxy of --https-proxy speaks TLS, docs/HTTPS.md",
    },
    Instead {
        form: "--private-key",
        advice: "the proxy of --https-proxy speaks TLS, docs/HTTPS.md",
    },
    Instead {
        form: "--private-key-type",
        advice: "the proxy of --https-proxy speaks TLS, docs/HTTPS.md",
    },
    Instead {
        form: "--crl-file",
        advice: "the proxy of --https-proxy speaks TLS, docs/HTTPS.md",
    },
    Instead {
        form: "--pinnedpubkey",
        advice: "the proxy of --https-proxy speaks TLS, docs/HTTPS.md",
    },
    Instead {
        form: "--ciphers",
        advice: "the proxy of --https-proxy speaks TLS, docs/HTTPS.md",
    },
    Instead {
        form: "--secure-protocol",
        advice: "the proxy of --https-proxy speaks TLS, docs/HTTPS.md",
    },
    Instead {
        form: "--https-only",
        advice: "with an https START each request is https, docs/HTTPS.md",
    },
    Instead {
        form: "--follow-ftp",
        advice: "FTP isn't spoken",
    },
    Instead {
        form: "--ftp-user",
        advice: "FTP isn't spoken",
    },
    Instead {
        form: "--ftp-password",
        advice: "FTP isn't spoken",
    },
    Instead {
        form: "--glob",
        advice: "FTP isn't spoken",
    },
    Instead {
        form: "--no-glob",
        advice: "FTP isn't spoken",
    },
    Instead {
        form: "--passive-ftp",
        advice: "FTP isn't spoken",
    },
    Instead {
        form: "--no-passive-ftp",
        advice: "FTP isn't spoken",
    },
    Instead {
        form: "--preserve-permissions",
        advice: "FTP isn't spoken",
    },
    Instead {
        form: "--retr-symlinks",
        advice: "FTP isn't spoken",
    },
    Instead {
        form: "--ftps-implicit",
        advice: "FTP isn't spoken",
    },
    Instead {
        form: "--ftps-resume-ssl",
        advice: "FTP isn't spoken",
    },
    Instead {
        form: "--ftps-clear-data-connection",
        advice: "FTP isn't spoken",
    },
    Instead {
        form: "--ftps-fallback-to-ftp",
        advice: "FTP isn't spoken",
    },
    Instead {
        form: "--warc-file",
        advice: "--save FILE writes what is received, docs/RECORDS.md",
    },
    Instead {
        form: "--warc-header",
        advice: "--save FILE writes what is received, docs/RECORDS.md",
    },
    Instead {
        form: "--warc-max-size",
        advice: "--save FILE writes what is received, docs/RECORDS.md",
    },
    Instead {
        form: "--warc-cdx",
        advice: "--save FILE writes what is received, docs/RECORDS.md",
    },
    Instead {
        form: "--warc-dedup",
        advice: "--save FILE writes what is received, docs/RECORDS.md",
    },
    Instead {
        form: "--no-warc-compression",
        advice: "--save FILE writes what is received, docs/RECORDS.md",
    },
    Instead {
        form: "--no-warc-digests",
        advice: "--save FILE writes what is received, docs/RECORDS.md",
    },
    Instead {
        form: "--no-warc-keep-log",
        advice: "--save FILE writes what is received, docs/RECORDS.md",
    },
    Instead {
        form: "--warc-tempdir",
        advice: "--save FILE writes what is received, docs/RECORDS.md",
    },
];

const INSTEADS: &[Instead<&str>] = &INSTEAD;

/// What to do in place of Wget's options.
pub(crate) fn insteads() -> &'static [Instead<&'static str>]
    ensures { map instead_in result.now ≡ instead }
{
    INSTEADS
}

/// The long forms of options that Wget doesn't have, and of their opposites.
const OWN: [&str; 28] = [
    "--answer-timeout",
    "--crawl-delay",
    "--delete-gone",
    "--http-proxy",
    "--https-proxy",
    "--map",
    "--max-body",
    "--max-urls",
    "--no-crawl-delay",
    "--no-delete-gone",
    "--no-map",
    "--no-record",
    "--no-retry-failed",
    "--no-robots",
    "--no-span-requisites",
    "--no-trace",
    "--no-trust-proxy",
    "--per-host",
    "--record",
    "--resume",
    "--retry-failed",
    "--robots",
    "--save",
    "--span-requisites",
    "--trace",
    "--trust-proxy",
    "--without-proxy",
    "--workers",
];

const OWNS: &[&str] = &OWN;

/// The long forms of options that Wget doesn't have.
pub(crate) fn own_forms() -> &'static [&'static str]
    ensures { map (λ form. form.now) result.now ≡ own }
{
    OWNS
}

/// A command of wgetrc. The type of its texts is a parameter, like that of a row's.
pub(crate) struct Command<T> {
    /// Its name in small letters, without `-` and `_`.
    pub name: T,
    /// The name of the long form that says the same, with the command's value.
    pub option: T,
}

/// The commands of wgetrc whose options are here.
const COMMANDS: [Command<&str>; 84] = [
    Command {
        name: "accept",
        option: "accept",
    },
    Command {
        name: "acceptregex",
        option: "accept-regex",
    },
    Command {
        name: "addhostdir",
        option: "host-directories",
    },
    Command {
        name: "adjustextension",
        option: "adjust-extension",
    },
    Command {
        name: "authnochallenge",
        option: "auth-no-challenge",
    },
    Command {
        name: "cache",
        option: "cache",
    },
    Command {
        name: "backupconverted",
        option: "backup-converted",
    },
    Command {
        name: "base",
        option: "base",
    },
    Command {
        name: "compression",
        option: "compression",
    },
    Command {
        name: "connecttimeout",
        option: "connect-timeout",
    },
    Command {
        name: "continue",
        option: "continue",
    },
    Command {
        name: "convertlinks",
        option: "convert-links",
    },
    Command {
        name: "cookies",
        option: "cookies",
    },
    Command {
        name: "cutdirs",
        option: "cut-dirs",
    },
    Command {
        name: "defaultpage",
        option: "default-page",
    },
    Command {
        name: "dirprefix",
        option: "directory-prefix",
    },
    Command {
        name: "dirstruct",
        option: "force-directories",
    },
    Command {
        name: "dnstimeout",
        option: "dns-timeout",
    },
    Command {
        name: "domains",
        option: "domains",
    },
    Command {
        name: "excludedirectories",
        option: "exclude-directories",
    },
    Command {
        name: "excludedomains",
        option: "exclude-domains",
    },
    Command {
        name: "followftp",
        option: "follow-ftp",
    },
    Command {
        name: "followtags",
        option: "follow-tags",
    },
    Command {
        name: "header",
        option: "header",
    },
    Command {
        name: "forcehtml",
        option: "force-html",
    },
    Command {
        name: "hsts",
        option: "hsts",
    },
    Command {
        name: "htmlextension",
        option: "html-extension",
    },
    Command {
        name: "httpkeepalive",
        option: "http-keep-alive",
    },
    Command {
        name: "httppassword",
        option: "http-password",
    },
    Command {
        name: "httpproxy",
        option: "http-proxy",
    },
    Command {
        name: "httpsproxy",
        option: "https-proxy",
    },
    Command {
        name: "httpuser",
        option: "http-user",
    },
    Command {
        name: "ignorecase",
        option: "ignore-case",
    },
    Command {
        name: "ignoretags",
        option: "ignore-tags",
    },
    Command {
        name: "includedirectories",
        option: "include-directories",
    },
    Command {
        name: "inet4only",
        option: "inet4-only",
    },
    Command {
        name: "inet6only",
        option: "inet6-only",
    },
    Command {
        name: "input",
        option: "input-file",
    },
    Command {
        name: "limitrate",
        option: "limit-rate",
    },
    Command {
        name: "loadcookies",
        option: "load-cookies",
    },
    Command {
        name: "logfile",
        option: "output-file",
    },
    Command {
        name: "mirror",
        option: "mirror",
    },
    Command {
        name: "netrc",
        option: "netrc",
    },
    Command {
        name: "noclobber",
        option: "no-clobber",
    },
    Command {
        name: "noconfig",
        option: "no-config",
    },
    Command {
        name: "noparent",
        option: "no-parent",
    },
    Command {
        name: "noproxy",
        option: "without-proxy",
    },
    Command {
        name: "pagerequisites",
        option: "page-requisites",
    },
    Command {
        name: "password",
        option: "password",
    },
    Command {
        name: "progress",
        option: "progress",
    },
    Command {
        name: "protocoldirectories",
        option: "protocol-directories",
    },
    Command {
        name: "quiet",
        option: "quiet",
    },
    Command {
        name: "quota",
        option: "quota",
    },
    Command {
        name: "randomwait",
        option: "random-wait",
    },
    Command {
        name: "readtimeout",
        option: "read-timeout",
    },
    Command {
        name: "reclevel",
        option: "level",
    },
    Command {
        name: "recursive",
        option: "recursive",
    },
    Command {
        name: "referer",
        option: "referer",
    },
    Command {
        name: "regextype",
        option: "regex-type",
    },
    Command {
        name: "reject",
        option: "reject",
    },
    Command {
        name: "rejectedlog",
        option: "rejected-log",
    },
    Command {
        name: "rejectregex",
        option: "reject-regex",
    },
    Command {
        name: "relativeonly",
        option: "relative",
    },
    Command {
        name: "removelisting",
        option: "remove-listing",
    },
    Command {
        name: "restrictfilenames",
        option: "restrict-file-names",
    },
    Command {
        name: "retryconnrefused",
        option: "retry-connrefused",
    },
    Command {
        name: "retryonhosterror",
        option: "retry-on-host-error",
    },
    Command {
        name: "retryonhttperror",
        option: "retry-on-http-error",
    },
    Command {
        name: "robots",
        option: "robots",
    },
    Command {
        name: "showprogress",
        option: "show-progress",
    },
    Command {
        name: "spanhosts",
        option: "span-hosts",
    },
    Command {
        name: "strictcomments",
        option: "strict-comments",
    },
    Command {
        name: "timeout",
        option: "timeout",
    },
    Command {
        name: "timestamping",
        option: "timestamping",
    },
    Command {
        name: "tries",
        option: "tries",
    },
    Command {
        name: "unlink",
        option: "unlink",
    },
    Command {
        name: "user",
        option: "user",
    },
    Command {
        name: "useproxy",
        option: "proxy",
    },
    Command {
        name: "useragent",
        option: "user-agent",
    },
    Command {
        name: "useservertimestamps",
        option: "use-server-timestamps",
    },
    Command {
        name: "verbose",
        option: "verbose",
    },
    Command {
        name: "wait",
        option: "wait",
    },
    Command {
        name: "waitretry",
        option: "waitretry",
    },
    Command {
        name: "xattr",
        option: "xattr",
    },
];

const COMMANDED: &[Command<&str>] = &COMMANDS;

/// The commands.
pub(crate) fn commands() -> &'static [Command<&'static str>]
    ensures { map command_in result.now ≡ commands }
{
    COMMANDED
}
