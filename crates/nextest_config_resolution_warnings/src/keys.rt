// Which keys a table at a place may have.
ghost use Rattle.std.specs.Prelude.{◌≡◌, map};
ghost use Rattle.std.specs.Option.{option_copied, option_map};
ghost use Rattle.toml.specs.View.{table_view};
ghost use Rattle.nextest_config_resolution_warnings.specs.Keys.{keys_of, place_seen, seen_row};
ghost use Rattle.nextest_config_resolution_warnings.specs.Places as places;

use crate::kind::Kind;
use crate::listed::{Listed, known_in};
use nextest_config_elements_toml::member;
use nextest_config_resolution_keys::Known;
use toml::{Table, Value};

// A key, and what stands there.
type Row = (&'static str, Kind);

const TOP: &[Row] = &[
    ("nextest-version", Kind::VersionTable),
    ("experimental", Kind::Anything),
    ("store", Kind::Store),
    ("profile", Kind::Profiles),
    ("test-groups", Kind::TestGroups),
    ("scripts", Kind::Scripts),
    ("script", Kind::SetupScripts),
];

const VERSION_TABLE: &[Row] = &[
    ("required", Kind::Anything),
    ("recommended", Kind::Anything),
];

const STORE: &[Row] = &[("dir", Kind::Anything)];

const FAIL_FAST: &[Row] = &[("max-fail", Kind::Anything), ("terminate", Kind::Anything)];

const RETRIES: &[Row] = &[
    ("backoff", Kind::Anything),
    ("count", Kind::Anything),
    ("delay", Kind::Anything),
    ("jitter", Kind::Anything),
    ("max-delay", Kind::Anything),
];

const FIXED_RETRIES: &[Row] = &[
    ("backoff", Kind::Anything),
    ("count", Kind::Anything),
    ("delay", Kind::Anything),
    ("jitter", Kind::Anything),
];

const SLOW_TIMEOUT: &[Row] = &[
    ("period", Kind::Anything),
    ("terminate-after", Kind::Anything),
    ("grace-period", Kind::Anything),
    ("on-timeout", Kind::Anything),
];

const LEAK_TIMEOUT: &[Row] = &[("period", Kind::Anything), ("result", Kind::Anything)];

const TEST_GROUP: &[Row] = &[("max-threads", Kind::Anything)];

const SCRIPTS: &[Row] = &[("setup", Kind::SetupScripts), ("wrapper", Kind::Wrappers)];

const SETUP_SCRIPT: &[Row] = &[
    ("command", Kind::Command),
    ("slow-timeout", Kind::SlowTimeout),
    ("leak-timeout", Kind::LeakTimeout),
    ("capture-stdout", Kind::Anything),
    ("capture-stderr", Kind::Anything),
    ("junit", Kind::SetupScriptJunit),
];

const SETUP_SCRIPT_JUNIT: &[Row] = &[
    ("store-success-output", Kind::Anything),
    ("store-failure-output", Kind::Anything),
];

const WRAPPER: &[Row] = &[
    ("command", Kind::Command),
    ("target-runner", Kind::Anything),
];

const COMMAND: &[Row] = &[
    ("command-line", Kind::Anything),
    ("env", Kind::Anything),
    ("relative-to", Kind::Anything),
];

// What stands at a listed key whose value has keys or items of its own.
const VALUES: &[Row] = &[
    ("fail-fast", Kind::FailFast),
    ("retries", Kind::Retries),
    ("slow-timeout", Kind::SlowTimeout),
    ("leak-timeout", Kind::LeakTimeout),
    ("platform", Kind::Listed(Listed::Platforms)),
    ("overrides", Kind::Overrides),
    ("scripts", Kind::ScriptRules),
];

// What stands at a place: something of a kind, or a table at this key of one with listed keys, in
// which more of these stand.
#[derive(Clone, Copy)]
pub(crate) enum Place<'a> {
    Kind(Kind),
    Within(Listed, &'a str),
}

// The keys that a table may have: these alone; or any, with the same at each; or those of a list,
// which stand in it, or in its table at this key.
#[derive(Clone, Copy)]
pub(crate) enum Keys<'a> {
    These(&'static [Row]),
    Any(Kind),
    Listed(Listed, Option<&'a str>),
}

// The keys that a table of a kind may have.
#[tactic(auto, unfolding(crate::specs::Places::keys_at))]
fn keys_at<'a>(kind: Kind) -> Keys<'a>
    ensures { keys_of result ≡ places.keys_at kind }
{
    match kind {
        Kind::Top => Keys::These(TOP),
        Kind::VersionTable => Keys::These(VERSION_TABLE),
        Kind::Store => Keys::These(STORE),
        Kind::Listed(list) => Keys::Listed(list, None),
        Kind::FailFast => Keys::These(FAIL_FAST),
        Kind::Retries => Keys::These(RETRIES),
        Kind::FixedRetries => Keys::These(FIXED_RETRIES),
        Kind::SlowTimeout => Keys::These(SLOW_TIMEOUT),
        Kind::LeakTimeout => Keys::These(LEAK_TIMEOUT),
        Kind::TestGroup => Keys::These(TEST_GROUP),
        Kind::Scripts => Keys::These(SCRIPTS),
        Kind::SetupScript => Keys::These(SETUP_SCRIPT),
        Kind::SetupScriptJunit => Keys::These(SETUP_SCRIPT_JUNIT),
        Kind::Wrapper => Keys::These(WRAPPER),
        Kind::Command => Keys::These(COMMAND),
        Kind::Profiles => Keys::Any(Kind::Listed(Listed::Profile)),
        Kind::TestGroups => Keys::Any(Kind::TestGroup),
        Kind::SetupScripts => Keys::Any(Kind::SetupScript),
        Kind::Wrappers => Keys::Any(Kind::Wrapper),
        Kind::Overrides | Kind::ScriptRules | Kind::Anything => Keys::Any(Kind::Anything),
    }
}

// The keys that a table at a place may have: a longest delay has no meaning beside equal ones.
pub(crate) fn keys_in<'a>(place: Place<'a>, table: &Table) -> Keys<'a>
    ensures { keys_of result ≡ places.keys_in (place_seen place.entry) (table_view table.now) }
{
    match place {
        Place::Kind(Kind::Retries) if has_fixed_delays(table) => keys_at(Kind::FixedRetries),
        Place::Kind(kind) => keys_at(kind),
        Place::Within(list, above) => Keys::Listed(list, Some(above)),
    }
}

// Whether a table sets equal delays.
fn has_fixed_delays(table: &Table) -> bool
    ensures { result ≡ places.has_fixed_delays (table_view table.now) }
{
    match member(table, "backoff") {
        Some(Value::String(text)) => text.as_str() == "fixed",
        _ => false,
    }
}

// What stands at each position of a list at a place.
pub(crate) fn items_at<'a>(place: Place<'a>) -> Place<'a>
    ensures { place_seen result ≡ places.items_at (place_seen place.entry) }
{
    match place {
        Place::Kind(Kind::Overrides) => Place::Kind(Kind::Listed(Listed::Override)),
        Place::Kind(Kind::ScriptRules) => Place::Kind(Kind::Listed(Listed::ScriptRule)),
        _ => Place::Kind(Kind::Anything),
    }
}

// What stands at a key, if a table may have it.
pub(crate) fn place_of<'a>(keys: Keys<'a>, key: &'a str) -> Option<Place<'a>>
    ensures { option_map place_seen result ≡ places.place_of (keys_of keys.entry) key.now }
{
    match keys {
        Keys::These(rows) => Some(Place::Kind(named_in(rows, key)?)),
        Keys::Any(kind) => Some(Place::Kind(kind)),
        Keys::Listed(list, above) => match above {
            None => in_table(list, key),
            Some(above) => below_table(list, above, key),
        },
    }
}

// What stands at a key of a table with listed keys.
fn in_table<'a>(list: Listed, key: &'a str) -> Option<Place<'a>>
    ensures { option_map place_seen result ≡ places.in_table list key.now }
{
    match known_in(list, &[key])? {
        Known::Value => Some(Place::Kind(value_at(key))),
        Known::Table => Some(Place::Within(list, key)),
    }
}

// What stands at a key of a table in it.
fn below_table<'a>(list: Listed, above: &str, key: &str) -> Option<Place<'a>>
    ensures { option_map place_seen result ≡ places.below_table list above.now key.now }
{
    match known_in(list, &[above, key])? {
        Known::Value => Some(Place::Kind(value_at(key))),
        Known::Table => Some(Place::Kind(Kind::Anything)),
    }
}

// What the value of a listed key is.
fn value_at(key: &str) -> Kind
    ensures { result ≡ places.value_at key.now }
{
    match named_in(VALUES, key) {
        Some(kind) => kind,
        None => Kind::Anything,
    }
}

// What stands at a key, if it is one of some.
fn named_in(rows: &[Row], key: &str) -> Option<Kind>
    ensures { result ≡ places.named_in (map seen_row rows.now) key.now }
{
    for (name, kind) in rows {
        if key == *name {
            return Some(*kind);
        }
    }
    None
}
