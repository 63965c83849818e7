//! Rows of words: what is asked, what is given, and what is answered. A list stands behind the number of its members.
#![tactic(auto)]

use std::alloc::Global;
use std::cmp::Ordering;
use std::str::SplitAsciiWhitespace;

/// The words of a row that are left, and the allocator for what is made of them. A word that can't be read and memory that is
/// refused are noted as a fault: so no reader has to leave early, and a row is held to be answered only where there was none.
#[derive(Drop)]
pub struct Words<'a> {
    left: SplitAsciiWhitespace<'a>,
    alloc: Global,
    is_sound: bool,
}

impl<'a> Words<'a> {
    /// The words of a row.
    pub fn of(alloc: Global, row: &'a str) -> Self {
        Words {
            left: row.split_ascii_whitespace(),
            alloc,
            is_sound: true,
        }
    }

    /// The allocator for what is made of the row.
    pub fn alloc(&self) -> Global {
        self.alloc
    }

    /// Whether no word is left, and there was no fault.
    pub fn are_read(&mut self) -> bool {
        self.is_sound && self.left.next().is_none()
    }

    /// Notes a fault, unless all is well.
    pub fn note(&mut self, is_well: bool) {
        self.is_sound &= is_well;
    }

    /// What was read. Where nothing was, that is a fault, and something stands for it.
    pub fn read<T: Copy>(&mut self, found: Option<T>, otherwise: T) -> T {
        self.note(found.is_some());
        found.unwrap_or(otherwise)
    }

    /// The next word. Where none is left, that is a fault.
    pub fn next(&mut self) -> &'a str {
        let word = self.left.next();
        self.read(word, "")
    }

    /// The next word as a number of up to 128 bits.
    pub fn wide(&mut self) -> i128 {
        let number = self.next().parse().ok();
        self.read(number, 0)
    }

    /// The next word as a number.
    pub fn number(&mut self) -> i64 {
        let number = i64::try_from(self.wide()).ok();
        self.read(number, 0)
    }

    /// The next word as a coordinate.
    pub fn coordinate(&mut self) -> i32 {
        let coordinate = i32::try_from(self.wide()).ok();
        self.read(coordinate, 0)
    }

    /// The next word as a number of things.
    pub fn count(&mut self) -> usize {
        let count = usize::try_from(self.wide()).ok();
        self.read(count, 0)
    }

    /// The next word as `true` or `false`.
    pub fn flag(&mut self) -> bool {
        let flag = match self.next() {
            "true" => Some(true),
            "false" => Some(false),
            _ => None,
        };
        self.read(flag, false)
    }

    /// The next word as `Less`, `Equal` or `Greater`.
    pub fn ordering(&mut self) -> Ordering {
        let ordering = match self.next() {
            "Less" => Some(Ordering::Less),
            "Equal" => Some(Ordering::Equal),
            "Greater" => Some(Ordering::Greater),
            _ => None,
        };
        self.read(ordering, Ordering::Equal)
    }

    /// A list: the number of its members, and then each of them as it is read.
    pub fn list<T: Drop, F: Fn(&mut Words<'a>) -> T>(&mut self, member: F) -> Vec<T>
        requires { F.IsAlwaysCallable member }
    {
        let mut members = Vec::new(self.alloc);
        for _ in 0..self.count() {
            let member = member(self);
            self.note(members.push(member).is_ok());
        }
        members
    }
}
