// Members of a table that are asked for in the order of their keys.
ghost use Rattle.std.specs.Prelude.{◌≡◌, List, option_map};
ghost use Rattle.std.specs.Cmp.Lexicographic.{slice_cmp};
ghost use Rattle.std.specs.Ordering.{nat_cmp};
ghost use Rattle.toml.specs.Data.{get_member};
ghost use Rattle.toml.specs.View.{members_view, table_view, view};
ghost use Rattle.nextest_config_elements_toml.specs.Walks.{Entry, IsAhead, IsWalk, is_passed};

use crate::table::member;
use std::cmp::Ordering;
use std::collections::btree_map::Iter;
use std::marker::Model;
use toml::{Table, Value};

// A walk over the members of a table.
#[derive(Drop)]
struct Walk<'a> {
    // the last key that it is past, if it is past any
    passed: Option<&'a String>,
    // where it stands
    next: Option<(&'a String, &'a Value)>,
    // what comes then
    rest: Iter<'a, String, Value>,
}

/// The members of a table, some of which are asked for: keys that are asked for in their order take
/// one walk over the table together, and any other takes a look-up. In a clause it is the members.
#[derive(Drop)]
pub struct TableMembers<'a> {
    table: &'a Table,
    walk: Walk<'a>,
}

impl<'a> Model for TableMembers<'a> {
    ghost use Rattle.std.specs.Coded.{codes};
    ghost use Rattle.std.specs.Prelude.{List};
    ghost use Rattle.toml.specs.contracts.value.Value as value;
    ghost use Rattle.nextest_config_elements_toml.specs.Walks.{Entry, IsWalk};

    ghost Value = { List Entry };

    ghost coded = { Prim.hlevel (codes, value.the_row.coded) };

    ghost view = { λ it. it.table.now.entries };

    ghost invariant = { λ it. IsWalk it.table.now.entries it.walk };
}

impl<'a> TableMembers<'a> {
    /// The members of a table.
    pub fn new(table: &'a Table) -> Self
        ensures { members_view result ≡ table_view table.now }
    {
        let mut rest = table.iter();
        let next = rest.next();
        TableMembers {
            table,
            walk: Walk {
                passed: None,
                next,
                rest,
            },
        }
    }

    /// What stands under a key.
    pub fn get(&mut self, key: &str) -> Option<&'a Value>
        ensures found { option_map (λ it. view it.now) result
            ≡ get_member key.now (members_view self.old) }
        ensures members { members_view self.new ≡ members_view self.old }
    {
        match self.walk.go_to(key) {
            Some(value) => Some(value),
            None if self.walk.is_past(key) => member(self.table, key),
            None => None,
        }
    }
}

impl<'a> Walk<'a> {
    // Whether it is past a key.
    fn is_past(&self, key: &str) -> bool
        ensures { result ≡ is_passed self.now.passed key.now }
    {
        match self.passed {
            Some(passed) => match compare(key, passed.as_str()) {
                Ordering::Less | Ordering::Equal => true,
                Ordering::Greater => false,
            },
            None => false,
        }
    }

    // What stands under a key, if that is ahead.
    fn go_to(&mut self, key: &str) -> Option<&'a Value>
        ensures walk { (all : List Entry) → IsWalk all self.old → IsWalk all self.new }
        ensures found { (all : List Entry) → IsWalk all self.old
            → IsAhead all self.new.passed key.now (option_map (λ it. view it.now) result) }
    {
        while let Some((name, value)) = self.next {
            match compare(key, name.as_str()) {
                Ordering::Less => return None,
                Ordering::Equal => {
                    self.passed = Some(name);
                    self.next = self.rest.next();
                    return Some(value);
                }
                Ordering::Greater => {
                    self.passed = Some(name);
                    self.next = self.rest.next();
                }
            }
        }
        None
    }
}

// How two keys compare: mostly their first bytes tell.
fn compare(one: &str, other: &str) -> Ordering
    ensures { result ≡ slice_cmp nat_cmp one.now other.now }
{
    match (one.as_bytes().first(), other.as_bytes().first()) {
        (Some(first), Some(beside)) if first != beside => first.cmp(beside),
        _ => one.cmp(other),
    }
}
