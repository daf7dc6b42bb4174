// The workspaces that the tables of compiled filtersets name; their heads say what is in each.
use crate::parts::{Word, list_of, three};
use crate::{ok, some};
use nextest_filtering::{BinaryQuery, BuildPlatform, PackageGraph, ParseContext};
use nextest_text::Text;
use std::alloc::Global;

const CHAIN_PACKAGES: [(&str, &str); 3] = [("a-1", "a"), ("b-1", "b"), ("c-1", "c")];

const CHAIN_LINKS: [(&str, &str); 2] = [("a-1", "b-1"), ("b-1", "c-1")];

const CHAIN_BINARIES: &str = "a a-1 lib a target
a::it a-1 test it target
b b-1 lib b target
b::bench/fast b-1 bench fast target
b::example/show b-1 example show host
c c-1 proc-macro c host
c::bin/tool c-1 bin tool target";

const NET_PACKAGES: [(&str, &str); 7] = [
    ("app-1", "app"),
    ("core-1", "core"),
    ("util-1", "util"),
    ("log-1", "log"),
    ("twin-1", "twin"),
    ("twin-2", "twin"),
    ("grey-1", "grey"),
];

const NET_LINKS: [(&str, &str); 5] = [
    ("app-1", "core-1"),
    ("app-1", "util-1"),
    ("core-1", "log-1"),
    ("util-1", "log-1"),
    ("twin-1", "core-1"),
];

const NET_BINARIES: &str = "app::bin/app app-1 bin app target
core core-1 lib core target
util::it util-1 test it target
log log-1 lib log host
log::macros log-1 proc-macro macros host
one::it twin-1 test it target
two::it twin-2 test it host
grey::bench/slow grey-1 bench slow target";

const RING_PACKAGES: [(&str, &str); 5] = [
    ("red-1", "red"),
    ("green-1", "grün"),
    ("blue-1", "blue"),
    ("grey-1", "grey"),
    ("far-1", "far_blue"),
];

const RING_LINKS: [(&str, &str); 4] = [
    ("red-1", "green-1"),
    ("green-1", "blue-1"),
    ("blue-1", "red-1"),
    ("grey-1", "red-1"),
];

const RING_BINARIES: &str = "red red-1 lib red target
grün green-1 lib grün host
blue::it blue-1 test it target
grey grey-1 lib grey target
far_blue far-1 lib far_blue target";

const LINE_PACKAGES: &str =
    "p0 p1 p2 p3 p4 p5 p6 p7 p8 p9 p10 p11 p12 p13 p14 p15 p16 p17 p18 p19 p20 p21 p22 p23 p24 p25 p26 p27 p28 p29 p30 p31 p32 p33 p34 p35 p36 p37 p38 p39 p40 p41 p42 p43 p44 p45 p46 p47 p48 p49 p50 p51 p52 p53 p54 p55 p56 p57 p58 p59 p60 p61 p62 p63 p64";

const LINE_BINARIES: &str = "p0 p0 lib p0 target
p1 p1 lib p1 target
p31 p31 lib p31 target
p32 p32 lib p32 target
p63 p63 lib p63 target
p64 p64 lib p64 target";

// A workspace by its name.
pub(crate) fn workspace(alloc: Global, name: &str) -> Option<ParseContext> {
    let binaries = some!(list_of::<(Text, Text)>(alloc, binary_lines(name), "\n"));
    let graph = ok!(some!(graph(alloc, name)).clone());
    let cx = ok!(ParseContext::new(alloc, graph));
    cx.with_binaries(binaries).clone().ok()
}

// The id of a binary, and its name.
impl Word for (Text, Text) {
    fn of_word(alloc: Global, line: &str) -> Option<(Text, Text)> {
        let binary = binary_of(line);
        let id = ok!(Text::from_str(alloc, binary.binary_id));
        Some((id, ok!(Text::from_str(alloc, binary.binary_name))))
    }
}

// The binary of an id in the workspace of a name.
pub(crate) fn binary(name: &str, id: &str) -> Option<BinaryQuery<'static>> {
    for line in binary_lines(name).lines() {
        let binary = binary_of(line);
        if binary.binary_id == id {
            return Some(binary);
        }
    }
    None
}

fn graph(alloc: Global, name: &str) -> Option<PackageGraph> {
    match name {
        "chain" | "bare" => PackageGraph::new(alloc, &CHAIN_PACKAGES, &CHAIN_LINKS).ok(),
        "net" => PackageGraph::new(alloc, &NET_PACKAGES, &NET_LINKS).ok(),
        "ring" => PackageGraph::new(alloc, &RING_PACKAGES, &RING_LINKS).ok(),
        "line" => line(alloc),
        _ => None,
    }
}

// Packages, each linked to the next.
fn line(alloc: Global) -> Option<PackageGraph> {
    let mut packages = Vec::new(alloc);
    let mut links = Vec::new(alloc);
    let mut before: Option<&str> = None;
    for name in LINE_PACKAGES.split(' ') {
        ok!(packages.push((name, name)));
        if let Some(before) = before {
            ok!(links.push((before, name)));
        }
        before = Some(name);
    }
    PackageGraph::new(alloc, packages.as_slice(), links.as_slice()).ok()
}

// The binaries of the workspace of a name, one a line: id, package's id, kind, name, platform.
fn binary_lines(name: &str) -> &'static str {
    match name {
        "chain" => CHAIN_BINARIES,
        "net" => NET_BINARIES,
        "ring" => RING_BINARIES,
        "line" => LINE_BINARIES,
        _ => "",
    }
}

fn binary_of(line: &str) -> BinaryQuery<'_> {
    let (binary_id, package_id, rest) = three(line);
    let (kind, binary_name, platform) = three(rest);
    let platform = match platform {
        "host" => BuildPlatform::Host,
        _ => BuildPlatform::Target,
    };
    BinaryQuery {
        package_id,
        binary_id,
        kind,
        binary_name,
        platform,
    }
}
