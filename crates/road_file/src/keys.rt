// The keys that the tables of a road file must have, and those that they may have.
ghost use Rattle.std.specs.Prelude.{◌≡◌, map, option_map};
ghost use Rattle.std.specs.List.{list_any};
ghost use Rattle.std.specs.Str.{bytes_eq};
ghost use Rattle.toml.specs.View.{table_view, array_view};

use crate::kinds::find;
use toml::Table;
use toml::value::Array;

const ROOT_REQUIRED: [&str; 8] = [
    "version", "step", "stages", "knots", "low", "high", "grade", "curve",
];

const ROOT_KNOWN: [&str; 17] = [
    "version", "step", "stages", "knots", "low", "high", "grade", "curve", "nodes", "pivots",
    "table", "section", "hop", "fixed", "pit", "road", "block",
];

const SECTION: [&str; 8] = [
    "station",
    "ground",
    "cut",
    "fill",
    "cut_cost",
    "fill_cost",
    "cut_max",
    "fill_max",
];

const HOP: [&str; 4] = ["right_cost", "right_max", "left_cost", "left_max"];

const FIXED: [&str; 3] = ["station", "low", "high"];

const PIT: [&str; 4] = ["name", "kind", "capacity", "cost"];

const ROAD: [&str; 4] = ["pit", "section", "cost", "max"];

const BLOCK: [&str; 2] = ["section", "cost"];

/// What the entries of a list are.
#[derive(Clone, Copy)]
pub(crate) enum EntryKind {
    Section,
    Hop,
    Fixed,
    Pit,
    Road,
    Block,
}

impl EntryKind {
    ghost use Rattle.road_file.specs.Keys.{list_key, entry_keys};

    /// The key of the list.
    #[tactic(auto, unfolding(crate::specs::Keys::list_key))]
    fn list_key(self) -> &'static str
        ensures { result.now ≡ list_key self }
    {
        match self {
            EntryKind::Section => "section",
            EntryKind::Hop => "hop",
            EntryKind::Fixed => "fixed",
            EntryKind::Pit => "pit",
            EntryKind::Road => "road",
            EntryKind::Block => "block",
        }
    }

    /// The keys of an entry.
    #[tactic(auto, unfolding(crate::specs::Keys::entry_keys))]
    fn entry_keys(self) -> &'static [&'static str]
        ensures { map (λ k. k.now) result.now ≡ entry_keys self }
    {
        match self {
            EntryKind::Section => &SECTION,
            EntryKind::Hop => &HOP,
            EntryKind::Fixed => &FIXED,
            EntryKind::Pit => &PIT,
            EntryKind::Road => &ROAD,
            EntryKind::Block => &BLOCK,
        }
    }
}

/// A rule about the keys of a table.
#[derive(Clone, Copy)]
pub(crate) enum KeyRule {
    /// Every one of the keys stands there.
    Complete,
    /// No other key stands there.
    Known,
}

impl KeyRule {
    ghost use Rattle.road_file.specs.Keys.{keeps_keys, each_keeps, list_keeps, lists_keep};

    #[tactic(auto, unfolding(crate::specs::Keys::keeps_keys))]
    fn is_kept(self, table: &Table, keys: &[&str]) -> bool
        ensures { result ≡ keeps_keys self (map (λ k. k.now) keys.now) (table_view table.now) }
    {
        match self {
            KeyRule::Complete => has_all(table, keys),
            KeyRule::Known => knows_all(table, keys),
        }
    }

    fn is_kept_by_each(self, items: &Array, keys: &[&str]) -> bool
        ensures { result ≡ each_keeps self (map (λ k. k.now) keys.now) (array_view items.now) }
    {
        for item in items {
            if let Some(table) = item.as_table() {
                if !self.is_kept(table, keys) {
                    return false;
                }
            }
        }
        true
    }

    #[tactic(auto, unfolding(crate::specs::Keys::list_keeps))]
    fn is_kept_by_list(self, kind: EntryKind, root: &Table) -> bool
        ensures { result ≡ list_keeps self kind (table_view root.now) }
    {
        match elements_at(root, kind.list_key()) {
            Some(items) => self.is_kept_by_each(items, kind.entry_keys()),
            None => true,
        }
    }

    #[tactic(auto, unfolding(crate::specs::Keys::lists_keep))]
    fn is_kept_by_lists(self, root: &Table) -> bool
        ensures { result ≡ lists_keep self (table_view root.now) }
    {
        self.is_kept_by_list(EntryKind::Section, root)
            && self.is_kept_by_list(EntryKind::Hop, root)
            && self.is_kept_by_list(EntryKind::Fixed, root)
            && self.is_kept_by_list(EntryKind::Pit, root)
            && self.is_kept_by_list(EntryKind::Road, root)
            && self.is_kept_by_list(EntryKind::Block, root)
    }
}

ghost use Rattle.road_file.specs.Keys.{root_required, root_known, has_key, has_keys, knows_keys, elements_at, keeps_keys, is_complete, is_known};

/// The elements of the list at a key, where a list stands there.
fn elements_at<'a>(root: &'a Table, key: &str) -> Option<&'a Array>
    ensures { option_map (λ v. array_view v.now) result ≡ elements_at key.now (table_view root.now) }
{
    match find(root, key) {
        Some(value) => value.as_array(),
        None => None,
    }
}

#[tactic(auto, unfolding(crate::specs::Keys::has_key))]
fn has(table: &Table, key: &str) -> bool
    ensures { result ≡ has_key (table_view table.now) key.now }
{
    find(table, key).is_some()
}

#[tactic(auto, unfolding(crate::specs::Keys::has_keys))]
fn has_all(table: &Table, keys: &[&str]) -> bool
    ensures { result ≡ has_keys (map (λ k. k.now) keys.now) (table_view table.now) }
{
    keys.iter().all(|key| has(table, key))
}

fn is_among(key: &str, keys: &[&str]) -> bool
    ensures { result ≡ list_any (bytes_eq key.now) (map (λ k. k.now) keys.now) }
{
    keys.iter().any(|known| key == *known)
}

fn knows_all(table: &Table, keys: &[&str]) -> bool
    ensures { result ≡ knows_keys (map (λ k. k.now) keys.now) (table_view table.now) }
{
    table.keys().all(|key| is_among(key.as_str(), keys))
}

#[tactic(auto, unfolding(crate::specs::Keys::root_required))]
fn root_is_complete(root: &Table) -> bool
    ensures { result ≡ keeps_keys KeyRule.Complete root_required (table_view root.now) }
{
    KeyRule::Complete.is_kept(root, &ROOT_REQUIRED)
}

#[tactic(auto, unfolding(crate::specs::Keys::root_known))]
fn root_is_known(root: &Table) -> bool
    ensures { result ≡ keeps_keys KeyRule.Known root_known (table_view root.now) }
{
    KeyRule::Known.is_kept(root, &ROOT_KNOWN)
}

/// No required key is missing, and sections stand in the file or in a table that it names.
#[tactic(auto, unfolding(crate::specs::Keys::is_complete))]
pub(crate) fn is_complete(root: &Table) -> bool
    ensures { result ≡ is_complete (table_view root.now) }
{
    root_is_complete(root)
        && KeyRule::Complete.is_kept_by_lists(root)
        && (has(root, "table") || has(root, "section"))
}

/// No unknown key stands, and sections don't stand both in the file and in a table that it names.
#[tactic(auto, unfolding(crate::specs::Keys::is_known))]
pub(crate) fn is_known(root: &Table) -> bool
    ensures { result ≡ is_known (table_view root.now) }
{
    root_is_known(root)
        && KeyRule::Known.is_kept_by_lists(root)
        && !(has(root, "table") && has(root, "section"))
}
