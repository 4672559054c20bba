//! The names of groups.

ghost use Rattle.std.specs.Prelude.{◌≡◌, ◌-◌, IfOk, IfErr, None, Some, length, map, replicate, slice_get, slice_index_or};
ghost use Rattle.std.specs.Iterator.{YieldsFirstBy, at_most};
ghost use Rattle.fancy_core.specs.CaptureNames.{template_groups, names_of_groups, names_left, read_name};
ghost use Rattle.fancy_core.specs.Regexes.{group_count_in};

use crate::regex::Regex;
use fancy_template::groups::GroupNames;
use fancy_tree::error::{Error, Result};
use std::alloc::{AllocError, Global};

/// The name of each group of a regex, in the order of their numbers; made by [`Regex::capture_names`].
#[derive(Drop)]
pub struct CaptureNames<'r> {
    names: Vec<Option<&'r str>>,
    next: usize,
}

impl Regex {
    /// The name of each group, or `None` for a group without one, in the order of their numbers. The first item is that
    /// of group 0, the whole match, which has no name.
    ///
    /// ```text
    /// Regex::new(alloc, "(?<a>x)(y)")?.capture_names()?  // None, Some("a"), None
    /// ```
    pub fn capture_names(&self) -> Result<CaptureNames<'_>>
        ensures names { IfOk result (λ n. names_left n ≡ names_of_groups self.now) }
        ensures count { IfOk result (λ n. length (names_left n) ≡ group_count_in self.now) }
        ensures whole_match { IfOk result (λ n. slice_get (names_left n) 0 ≡ Some None) }
        ensures refused { IfErr result (λ e. e ≡ Error.Memory) }
    {
        let mut names = groups_without_names(self.allocator(), self.captures_len())?;
        let groups = self.names().groups();
        for named in groups {
            if named.group < names.len() {
                names[named.group] = Some(named.name.as_str());
            }
        }
        Ok(CaptureNames { names, next: 0 })
    }
}

impl GroupNames for Regex {
    ghost groups = { template_groups };

    fn group_count(&self) -> usize {
        self.captures_len()
    }

    fn has_names(&self) -> bool {
        !self.names().groups().is_empty()
    }

    /// The number of the last group in the pattern that has this name.
    fn group_named(&self, name: &str) -> Option<usize> {
        self.names().last_named(name)
    }

    fn allocator(&self) -> Global {
        Regex::allocator(self)
    }
}

/// So many groups without names.
fn groups_without_names<'r>(
    alloc: Global,
    count: usize,
) -> std::result::Result<Vec<Option<&'r str>>, AllocError>
    ensures { IfOk result (λ v. v.items ≡ replicate count None) }
{
    let mut names = Vec::new(alloc);
    names.resize(count, None)?;
    Ok(names)
}

/// The name with this number among these.
fn name_at<'r>(names: &[Option<&'r str>], number: usize) -> Option<&'r str>
    ensures { read_name result ≡ slice_index_or (map read_name names.now) number None }
{
    if number < names.len() {
        names[number]
    } else {
        None
    }
}

impl<'r> Iterator for CaptureNames<'r> {
    type Item = Option<&'r str>;

    ghost next_gives = { YieldsFirstBy read_name names_left };

    ghost remaining = { λ n. at_most (length n.names.items - n.next) };

    fn next(&mut self) -> Option<Option<&'r str>> {
        if self.next >= self.names.len() {
            return None;
        }
        let name = name_at(&self.names, self.next);
        self.next += 1;
        Some(name)
    }
}
