//! What the help says of each option, by the option's name (GNU Wget manual, chapter Invoking).
ghost use Rattle.std.specs.Prelude.{◌≡◌, map, option_map};
ghost use Rattle.options.specs.Help.{says_of};
ghost use Rattle.options.specs.Table.{summaries};
ghost use Rattle.options.specs.inner.Table.{summary_in};

/// What an option does. The type of its texts is a parameter, since definitions can cite a constant of such a type.
pub(crate) struct Summary<T> {
    /// The option's name.
    pub name: T,
    /// What it does, for a person.
    pub says: T,
}

// An option that isn't here isn't in the help.
const SUMMARY: [Summary<&str>; 102] = [
    Summary {
        name: "recursive",
        says: "follow links",
    },
    Summary {
        name: "level",
        says: "at most N hops; 0 and inf are no limit",
    },
    Summary {
        name: "mirror",
        says: "-r -l inf -N: keep a mirror up to date",
    },
    Summary {
        name: "page-requisites",
        says: "also what pages show, as pictures and styles",
    },
    Summary {
        name: "span-requisites",
        says: "what pages show, from other hosts too",
    },
    Summary {
        name: "no-parent",
        says: "only the directory of START and below",
    },
    Summary {
        name: "span-hosts",
        says: "other hosts too",
    },
    Summary {
        name: "domains",
        says: "only hosts of these domains",
    },
    Summary {
        name: "exclude-domains",
        says: "no hosts of these domains",
    },
    Summary {
        name: "include-directories",
        says: "only these directories and what is below",
    },
    Summary {
        name: "exclude-directories",
        says: "not these directories",
    },
    Summary {
        name: "accept",
        says: "only names with these suffixes or patterns",
    },
    Summary {
        name: "reject",
        says: "no names with these suffixes or patterns",
    },
    Summary {
        name: "accept-regex",
        says: "only addresses in which REGEX is found",
    },
    Summary {
        name: "reject-regex",
        says: "no addresses in which REGEX is found",
    },
    Summary {
        name: "ignore-case",
        says: "letters of all these in either case",
    },
    Summary {
        name: "relative",
        says: "only links that are relative to their page",
    },
    Summary {
        name: "follow-tags",
        says: "only links of these elements: a,img/srcset",
    },
    Summary {
        name: "ignore-tags",
        says: "no links of these elements",
    },
    Summary {
        name: "execute",
        says: "as a line of wgetrc: robots=off, reclevel=2",
    },
    Summary {
        name: "no-robots",
        says: "no robots files",
    },
    Summary {
        name: "workers",
        says: "N workers",
    },
    Summary {
        name: "per-host",
        says: "N requests at a time to a server",
    },
    Summary {
        name: "no-http-keep-alive",
        says: "a connection of its own for each request",
    },
    Summary {
        name: "user-agent",
        says: "the name that servers receive; empty for none",
    },
    Summary {
        name: "header",
        says: "send this field, as \"Accept-Language: en\"",
    },
    Summary {
        name: "referer",
        says: "send it as the page that led here",
    },
    Summary {
        name: "no-cache",
        says: "no answers that caches kept",
    },
    Summary {
        name: "user",
        says: "the user name for the servers of STARTs",
    },
    Summary {
        name: "password",
        says: "its password",
    },
    Summary {
        name: "http-user",
        says: "likewise, before --user",
    },
    Summary {
        name: "http-password",
        says: "likewise, before --password",
    },
    Summary {
        name: "auth-no-challenge",
        says: "send both with each request to these servers",
    },
    Summary {
        name: "load-cookies",
        says: "send the cookies of FILE to the hosts in it",
    },
    Summary {
        name: "wait",
        says: "S seconds between requests; 2m, 3h and 1d too",
    },
    Summary {
        name: "random-wait",
        says: "that pause varies, from S/2 to 3S/2",
    },
    Summary {
        name: "crawl-delay",
        says: "pause as robots files ask, 60 s at most",
    },
    Summary {
        name: "tries",
        says: "up to N requests; 0 and inf are no limit",
    },
    Summary {
        name: "waitretry",
        says: "pause 1, 2, .. S seconds before that",
    },
    Summary {
        name: "retry-connrefused",
        says: "also after refused connections",
    },
    Summary {
        name: "retry-on-host-error",
        says: "also after unknown hosts",
    },
    Summary {
        name: "retry-on-http-error",
        says: "also after these statuses",
    },
    Summary {
        name: "timeout",
        says: "S to look up, connect or read; 0 is no limit",
    },
    Summary {
        name: "dns-timeout",
        says: "S to look a host up",
    },
    Summary {
        name: "connect-timeout",
        says: "S to connect",
    },
    Summary {
        name: "read-timeout",
        says: "S until a server sends more",
    },
    Summary {
        name: "answer-timeout",
        says: "S for a whole answer",
    },
    Summary {
        name: "max-body",
        says: "at most BYTES of a page; 5k, 5m, 5g",
    },
    Summary {
        name: "limit-rate",
        says: "read R bytes a second at most; 20k, 1.5m",
    },
    Summary {
        name: "quota",
        says: "request nothing after N bytes of bodies",
    },
    Summary {
        name: "inet4-only",
        says: "only IPv4 addresses of hosts",
    },
    Summary {
        name: "inet6-only",
        says: "only IPv6 addresses of hosts",
    },
    Summary {
        name: "https-proxy",
        says: "https by a proxy, as http://127.0.0.1:3128/",
    },
    Summary {
        name: "trust-proxy",
        says: "https also by a proxy on another machine",
    },
    Summary {
        name: "http-proxy",
        says: "http by a proxy, which may be anywhere",
    },
    Summary {
        name: "without-proxy",
        says: "hosts with these suffixes by no proxy",
    },
    Summary {
        name: "no-proxy",
        says: "no proxy, whatever words and environment say",
    },
    Summary {
        name: "max-urls",
        says: "at most N addresses",
    },
    Summary {
        name: "map",
        says: "the site is a map on standard input",
    },
    Summary {
        name: "record",
        says: "the site is a record on standard input",
    },
    Summary {
        name: "resume",
        says: "what this record has isn't asked for again",
    },
    Summary {
        name: "retry-failed",
        says: "with --resume: request again what failed",
    },
    Summary {
        name: "input-file",
        says: "also the STARTs in FILE, a line each",
    },
    Summary {
        name: "force-html",
        says: "the FILE of -i is HTML: its links are STARTs",
    },
    Summary {
        name: "base",
        says: "what the FILE of -i has is relative to URL",
    },
    Summary {
        name: "directory-prefix",
        says: "put files below DIR",
    },
    Summary {
        name: "no-directories",
        says: "all files in DIR itself",
    },
    Summary {
        name: "force-directories",
        says: "a folder for each directory, without -nd",
    },
    Summary {
        name: "no-host-directories",
        says: "no folder for the host",
    },
    Summary {
        name: "protocol-directories",
        says: "a folder for the scheme, as http",
    },
    Summary {
        name: "cut-dirs",
        says: "leave out N directories of the path",
    },
    Summary {
        name: "default-page",
        says: "a page without a name is NAME",
    },
    Summary {
        name: "adjust-extension",
        says: "HTML ends in .html, style sheets in .css",
    },
    Summary {
        name: "html-extension",
        says: "the same, by its older name",
    },
    Summary {
        name: "restrict-file-names",
        says: "unix, windows, ascii, lowercase, uppercase",
    },
    Summary {
        name: "convert-links",
        says: "links in files lead from file to file",
    },
    Summary {
        name: "backup-converted",
        says: "keep what -k changes as it came, as NAME.orig",
    },
    Summary {
        name: "timestamping",
        says: "request earlier pages only if they changed",
    },
    Summary {
        name: "no-clobber",
        says: "request no page of an earlier run",
    },
    Summary {
        name: "continue",
        says: "go on with a run that was stopped",
    },
    Summary {
        name: "delete-gone",
        says: "with -N: remove files of pages that are gone",
    },
    Summary {
        name: "no-use-server-timestamps",
        says: "files have the time when they were written",
    },
    Summary {
        name: "quiet",
        says: "tell nothing, except of refused words",
    },
    Summary {
        name: "output-file",
        says: "write report and failures into FILE",
    },
    Summary {
        name: "append-output",
        says: "likewise, after what FILE has",
    },
    Summary {
        name: "rejected-log",
        says: "write links that filters reject into FILE",
    },
    Summary {
        name: "trace",
        says: "the trace before the report",
    },
    Summary {
        name: "save",
        says: "write what the site answered into this record",
    },
    Summary {
        name: "no-verbose",
        says: "a line for each file",
    },
    Summary {
        name: "no-cookies",
        says: "no cookies",
    },
    Summary {
        name: "no-hsts",
        says: "no list of hosts that want https",
    },
    Summary {
        name: "no-config",
        says: "no start-up files",
    },
    Summary {
        name: "no-netrc",
        says: "no passwords of .netrc",
    },
    Summary {
        name: "unlink",
        says: "a new file takes the place of an old one",
    },
    Summary {
        name: "no-remove-listing",
        says: "no listing of FTP is removed",
    },
    Summary {
        name: "show-progress",
        says: "a line of progress, on a terminal",
    },
    Summary {
        name: "no-xattr",
        says: "no attributes of files",
    },
    Summary {
        name: "no-strict-comments",
        says: "comments as browsers read them",
    },
    Summary {
        name: "no-follow-ftp",
        says: "no links to FTP",
    },
    Summary {
        name: "progress",
        says: "of whatever type, as it is shown",
    },
    Summary {
        name: "compression",
        says: "bodies are asked for as they are",
    },
    Summary {
        name: "regex-type",
        says: "posix and pcre are read alike",
    },
];

const SUMMARIES: &[Summary<&str>] = &SUMMARY;

// What the options do.
fn summaries() -> &'static [Summary<&'static str>]
    ensures { map summary_in result.now ≡ summaries }
{
    SUMMARIES
}

// What these say of the option of that name, if anything.
fn says_of(name: &str, summaries: &[Summary<&'static str>]) -> Option<&'static str>
    ensures { option_map (λ says. says.now) result ≡ says_of name.now (map summary_in summaries.now) }
{
    for summary in summaries {
        if summary.name == name {
            return Some(summary.says);
        }
    }
    None
}

/// What the option of that name does, if the help shows it.
pub(crate) fn summary_of(name: &str) -> Option<&'static str>
    ensures { option_map (λ says. says.now) result ≡ says_of name.now summaries }
{
    says_of(name, summaries())
}
