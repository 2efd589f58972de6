//! Marks on a list's nodes, by which a walk begins near its end.
ghost use Rattle.std.specs.Prelude.{◌≡◌, ℕ, ◌+◌, ◌<◌, ◌≤◌, List, [], ◌∷◌, ◌⊎◌, insert, length, true, IfSome};
ghost use denote.RawPtr.{Ptr};
ghost use mathlib.Core.Option.{some};
ghost use lib.ListN.{get_elem?};
ghost use Rattle.message_list.specs.Marks.{AreMarksSound, IsSame, Lead, IsNear, IsPassed, IsBehind, with_node};

use crate::group::Group;
use crate::place::Place;
use std::alloc::Global;

/// So many groups there are at most.
const MOST: usize = 4_096;

/// Marks on the nodes of a list, in groups that follow one another. A node has a number, in which the nodes that were taken from the
/// front of the list before it count too. No mark has the number of its node: it has the way to the next mark, so that a node that
/// comes or goes changes one of these.
#[derive(Drop)]
pub struct Marks {
    /// The number of the list's first node. A mark whose number lies below it has no node.
    pub(crate) first: usize,
    /// The number of the first mark, below that of the list's first node.
    pub(crate) start: usize,
    /// One of the groups, or how many there are.
    pub(crate) near: usize,
    /// The number of its first mark.
    pub(crate) base: usize,
    pub(crate) groups: Vec<Group>,
}

// Each says that marks which led to their nodes still do.
impl Marks {
    pub(crate) fn new(alloc: Global) -> Marks
        ensures { (places : List Ptr) → Lead result places }
    {
        Marks {
            first: 1,
            start: 0,
            near: 0,
            base: 0,
            groups: Vec::new(alloc),
        }
    }

    /// No mark is left.
    #[inline(never)]
    pub(crate) fn clear(&mut self)
        ensures { (places : List Ptr) → Lead self.new places }
    {
        self.first = 1;
        self.start = 0;
        self.near = 0;
        self.base = 0;
        self.groups.clear();
    }

    /// Takes the memory for this many groups of marks, and has none yet.
    pub(crate) fn reserve(&mut self, alloc: Global, count: usize) -> bool
        ensures { (places : List Ptr) → Lead self.old places → Lead self.new places }
    {
        match Vec::with_capacity(alloc, count) {
            Ok(groups) => {
                self.first = 1;
                self.start = 0;
                self.near = 0;
                self.base = 0;
                self.groups = groups;
                true
            }
            Err(_) => false,
        }
    }

    /// Whether there are none.
    #[inline(always)]
    pub(crate) fn is_empty(&self) -> bool {
        self.groups.len() == 0
    }

    pub(crate) fn len(&self) -> usize {
        let mut len: usize = 0;
        for k in 0..self.groups.len() {
            len = len.saturating_add(self.groups[k].len());
        }
        len
    }

    // ---- where a node comes or goes

    /// A node has come before the node `i`, or behind the last of `len`.
    #[inline(always)]
    pub(crate) fn raise(&mut self, i: usize, len: usize)
        requires { AreMarksSound self.old }
        ensures { (few : List Ptr) (p : Ptr) → len ≡ length few → i ≤ length few → Lead self.old few → Lead self.new (with_node i p few) }
    {
        if i >= len {
            return;
        }
        if self.groups.len() == 0 {
            return;
        }
        self.raise_from(i);
    }

    #[inline(never)]
    fn raise_from(&mut self, i: usize)
        requires { AreMarksSound self.old }
        ensures { (few : List Ptr) (p : Ptr) → i ≤ length few → Lead self.old few → Lead self.new (with_node i p few) }
    {
        let Some(number) = (self.first - 1).checked_add(i) else {
            self.clear();
            return;
        };
        self.go_to(number);
        if self.near >= self.groups.len() {
            return;
        }
        let far = number - self.base;
        let raised = self.groups[self.near].widen(far);
        if !raised {
            self.clear();
        }
    }

    /// The first node has gone. No mark moves.
    #[inline(always)]
    pub(crate) fn pass_first(&mut self)
        ensures { (few : List Ptr) (p : Ptr) → Lead self.old (p ∷ few) → Lead self.new few }
    {
        if self.groups.len() == 0 {
            return;
        }
        match self.first.checked_add(1) {
            Some(first) => self.first = first,
            None => self.clear(),
        }
    }

    /// The node `i` behind the first has gone, so that `len` are left, and of these the node `i` lies at `next`, if there is one.
    #[inline(never)]
    pub(crate) fn lower(&mut self, i: usize, next: Place, len: usize)
        requires { AreMarksSound self.old }
        ensures { (few : List Ptr) (p : Ptr) → IsBehind few i len next.ptr → Lead self.old (with_node i p few) → Lead self.new few }
    {
        let Some(number) = self.first.checked_add(i) else {
            self.clear();
            return;
        };
        self.go_to(number);
        if self.near >= self.groups.len() {
            return;
        }
        if i >= len {
            self.clear();
            return;
        }
        let far = number - self.base;
        let lowered = self.groups[self.near].narrow(far, next);
        if !lowered {
            self.clear();
        }
    }

    // ---- the nearest mark

    /// Goes to the first group, if the one where it is begins behind this number.
    #[inline(always)]
    fn back(&mut self, number: usize)
        requires sound { AreMarksSound self.old }
        requires start { self.old.start ≤ number }
        ensures same { IsSame self.old self.new }
        ensures sound { AreMarksSound self.new }
        ensures start { self.new.base ≤ number }
    {
        if number < self.base {
            self.near = 0;
            self.base = self.start;
        }
    }

    /// Goes to the group of the last mark that has a number no greater than this, or behind the last group.
    fn go_to(&mut self, number: usize)
        requires sound { AreMarksSound self.old }
        requires start { self.old.start ≤ number }
        ensures same { IsSame self.old self.new }
        ensures sound { AreMarksSound self.new }
        ensures near { IsNear number self.new }
    {
        self.back(number);
        let (near, left) = self.pass(number - self.base);
        self.near = near;
        self.base = number - left;
    }

    /// The group of the last mark that lies no more than so far behind the first of the group where it is, and how far behind the
    /// first of that group it is. Where that is behind all, so many as there are.
    #[inline(always)]
    fn pass(&self, far: usize) -> (usize, usize)
        requires { AreMarksSound self.now }
        ensures { IsPassed self.now far result.0 result.1 }
    {
        let mut left = far;
        let mut near = self.near;
        while near < self.groups.len() {
            let count = self.groups[near].count();
            if left < count {
                return (near, left);
            }
            left -= count;
            near += 1;
        }
        (near, left)
    }

    /// Goes to the first group, if the one where it is stands behind this one.
    #[inline(always)]
    fn back_to(&mut self, group: usize)
        requires { AreMarksSound self.old }
        ensures same { IsSame self.old self.new }
        ensures sound { AreMarksSound self.new }
        ensures near { self.new.near ≤ group }
    {
        if group < self.near {
            self.near = 0;
            self.base = self.start;
        }
    }

    /// Goes to this group, and answers whether its first mark has a number.
    fn go_to_group(&mut self, group: usize) -> bool
        requires sound { AreMarksSound self.old }
        requires there { group < length self.old.groups.items }
        ensures same { IsSame self.old self.new }
        ensures sound { AreMarksSound self.new }
        ensures there { result ≡ true → self.new.near ≡ group }
    {
        self.back_to(group);
        let mut near = self.near;
        let mut base = self.base;
        while near < group {
            let Some(sum) = base.checked_add(self.groups[near].count()) else {
                return false;
            };
            base = sum;
            near += 1;
        }
        self.near = near;
        self.base = base;
        true
    }

    /// Lets the first group go, if all of its marks were passed, and answers whether it did.
    #[inline(always)]
    fn shed_one(&mut self) -> bool
        requires { AreMarksSound self.old }
        ensures first { self.new.first ≡ self.old.first }
        ensures sound { AreMarksSound self.new }
        ensures leads { (places : List Ptr) → Lead self.old places → Lead self.new places }
    {
        if self.groups.len() == 0 {
            return false;
        }
        let count = self.groups[0].count();
        if count >= self.first - self.start {
            return false;
        }
        self.start += count;
        self.near = 0;
        self.base = self.start;
        drop(self.groups.remove(0));
        true
    }

    /// Lets those groups go whose marks were all passed.
    fn shed(&mut self)
        requires { AreMarksSound self.old }
        ensures sound { AreMarksSound self.new }
        ensures leads { (places : List Ptr) → Lead self.old places → Lead self.new places }
    {
        for _ in 0..self.groups.len() {
            if !self.shed_one() {
                return;
            }
        }
    }

    /// How many groups begin with a mark whose key is no greater than this, if keys rise.
    #[inline(always)]
    fn groups_until(&self, key: u64) -> usize
        ensures { result ≤ length self.now.groups.items }
    {
        let mut low = 0;
        let mut high = self.groups.len();
        while low < high {
            let middle = low + (high - low) / 2;
            if self.groups[middle].begins_until(key) {
                low = middle + 1;
            } else {
                high = middle;
            }
        }
        low
    }

    /// Where the node of the last mark lies whose key is no greater than this, and its place in the list, counted from 0; None where
    /// that isn't behind the place `behind`, or there is none.
    pub(crate) fn find(&mut self, key: u64, behind: usize) -> Option<(Place, usize)>
        requires { AreMarksSound self.old }
        ensures kept { (places : List Ptr) → Lead self.old places → Lead self.new places }
        ensures leads { (places : List Ptr) → Lead self.old places → IfSome result (λ r. get_elem? places r.1 ≡ some r.0.ptr) }
    {
        if self.groups.len() == 0 {
            return None;
        }
        self.shed();
        self.read(key, behind)
    }

    fn read(&mut self, key: u64, behind: usize) -> Option<(Place, usize)>
        requires { AreMarksSound self.old }
        ensures kept { (places : List Ptr) → Lead self.old places → Lead self.new places }
        ensures leads { (places : List Ptr) → Lead self.old places → IfSome result (λ r. get_elem? places r.1 ≡ some r.0.ptr) }
    {
        let groups = self.groups_until(key);
        if groups == 0 {
            return None;
        }
        if !self.go_to_group(groups - 1) {
            return None;
        }
        let Some((at, far)) = self.groups[groups - 1].last_until(key) else {
            return None;
        };
        let Some(number) = self.base.checked_add(far) else {
            return None;
        };
        if number < self.first {
            return None;
        }
        let here = number - self.first;
        if here <= behind {
            return None;
        }
        Some((at, here))
    }

    // ---- more marks

    /// Puts a mark with this key on the node `here`, which lies at `at`.
    #[inline(never)]
    pub(crate) fn put(&mut self, alloc: Global, at: Place, here: usize, key: u64)
        requires { AreMarksSound self.old }
        ensures { (places : List Ptr) → get_elem? places here ≡ some at.ptr → Lead self.old places → Lead self.new places }
    {
        let Some(number) = self.first.checked_add(here) else {
            return;
        };
        self.make_way(alloc, number);
        self.put_near(at, number, key);
    }

    /// Makes room for a mark of this number.
    fn make_way(&mut self, alloc: Global, number: usize)
        requires sound { AreMarksSound self.old }
        requires start { self.old.start ≤ number }
        ensures sound { AreMarksSound self.new }
        ensures same { (self.new.first ≡ self.old.first) × (self.new.start ≡ self.old.start) }
        ensures leads { (places : List Ptr) → Lead self.old places → Lead self.new places }
    {
        if self.groups.len() == 0 {
            self.begin(alloc);
        }
        self.go_to(number);
        if self.near >= self.groups.len() {
            self.reach(number);
            return;
        }
        if self.groups[self.near].is_full() {
            self.split(alloc);
        }
    }

    /// Puts a mark on the node of this number, where it lies behind a mark and there is room.
    fn put_near(&mut self, at: Place, number: usize, key: u64)
        requires sound { AreMarksSound self.old }
        requires start { self.old.start ≤ number }
        ensures { (places : List Ptr) (here : ℕ) → number ≡ self.old.first + here → get_elem? places here ≡ some at.ptr → Lead self.old places → Lead self.new places }
    {
        self.go_to(number);
        if self.near >= self.groups.len() {
            return;
        }
        if self.groups[self.near].is_full() {
            return;
        }
        let far = number - self.base;
        self.groups[self.near].put(far, at, key);
    }

    /// The first mark, which has no node.
    fn begin(&mut self, alloc: Global)
        requires { AreMarksSound self.old }
        ensures sound { AreMarksSound self.new }
        ensures same { (self.new.first ≡ self.old.first) × (self.new.start ≡ self.old.start) }
        ensures leads { (places : List Ptr) → Lead self.old places → Lead self.new places }
    {
        self.near = 0;
        self.base = self.start;
        self.groups.clear();
        if let Some(group) = Group::passed(alloc) {
            let _ = self.groups.push(group).is_ok();
        }
    }

    /// Widens the way behind the last mark, so that it leads over this number.
    fn reach(&mut self, number: usize)
        requires sound { AreMarksSound self.old }
        ensures sound { AreMarksSound self.new }
        ensures same { (self.new.first ≡ self.old.first) × (self.new.start ≡ self.old.start) }
        ensures leads { (places : List Ptr) → Lead self.old places → Lead self.new places }
    {
        let len = self.groups.len();
        if len == 0 {
            return;
        }
        let Some(more) = number.saturating_sub(self.base).checked_add(1) else {
            return;
        };
        self.near = 0;
        self.base = self.start;
        let reached = self.groups[len - 1].reach(more);
        if !reached {
            self.groups.clear();
        }
    }

    /// Cuts the group where it is in two.
    fn split(&mut self, alloc: Global)
        requires sound { AreMarksSound self.old }
        requires there { self.old.near < length self.old.groups.items }
        ensures sound { AreMarksSound self.new }
        ensures same { (self.new.first ≡ self.old.first) × (self.new.start ≡ self.old.start) }
        ensures leads { (places : List Ptr) → Lead self.old places → Lead self.new places }
    {
        if self.groups.len() >= MOST {
            return;
        }
        match self.groups[self.near].split(alloc) {
            Some(group) => self.add(group),
            None => (),
        }
    }

    /// Puts this group behind the one where it is.
    fn add(&mut self, group: Group)
        requires { self.old.near < length self.old.groups.items }
        ensures sound { AreMarksSound self.old → AreMarksSound self.new }
        ensures same { (self.new.first ≡ self.old.first) × (self.new.start ≡ self.old.start) }
        ensures groups { (self.new.groups.items ≡ []) ⊎ (self.new.groups.items ≡ insert self.old.groups.items (self.old.near + 1) group) }
    {
        if self.groups.insert(self.near + 1, group).is_err() {
            self.near = 0;
            self.base = self.start;
            self.groups.clear();
        }
    }
}
