//! A group of marks.
ghost use Rattle.std.specs.Prelude.{◌≡◌, ℕ, ◌+◌, ◌<◌, ◌≤◌, List, length, take, true, IfSome, MatchOption};
ghost use denote.RawPtr.{Ptr};
ghost use Rattle.message_list.specs.Marks.{gaps, LeadsTo, IsGroupAt, IsMarkFound, Widens, Narrows, LeadsWith, IsCutInto};

use crate::place::Place;
use std::alloc::Global;

/// So many marks a group has at most.
const FULL: usize = 64;

/// A mark on a node.
#[derive(Clone, Copy)]
pub struct Mark {
    pub(crate) at: Place,
    /// So many nodes behind its own lies that of the next mark; above 0.
    pub(crate) gap: usize,
    /// What it is found by.
    pub(crate) key: u64,
}

/// Marks that follow one another.
#[derive(Drop)]
pub struct Group {
    /// The sum of their gaps.
    pub(crate) count: usize,
    pub(crate) list: Vec<Mark>,
}

/// Where a mark's node lies, once that so far behind it has gone, and one that lies at `next` came in its place.
fn at_left(at: Place, left: usize, next: Place) -> Place
    ensures gone { left ≡ 0 → result ≡ next }
    ensures kept { 0 < left → result ≡ at }
{
    if left == 0 {
        return next;
    }
    at
}

impl Group {
    /// One mark that has no node.
    pub(crate) fn passed(alloc: Global) -> Option<Group>
        ensures { IfSome result (λ g. (f n : ℕ) (places : List Ptr) → n < f → IsGroupAt f places n g) }
    {
        let Ok(mut list) = Vec::with_capacity(alloc, FULL) else {
            return None;
        };
        let mark = Mark {
            at: Place::nowhere(),
            gap: 1,
            key: 0,
        };
        if list.push(mark).is_err() {
            return None;
        }
        Some(Group { count: 1, list })
    }

    #[inline(always)]
    pub(crate) fn count(&self) -> usize
        ensures { result ≡ self.now.count }
    {
        self.count
    }

    pub(crate) fn len(&self) -> usize {
        self.list.len()
    }

    pub(crate) fn is_full(&self) -> bool {
        self.list.len() >= self.list.capacity().min(FULL)
    }

    /// Whether it begins with a mark whose key is no greater than this.
    #[inline(always)]
    pub(crate) fn begins_until(&self, key: u64) -> bool {
        if self.list.len() == 0 {
            return false;
        }
        self.list[0].key <= key
    }

    /// The last mark that lies no more than so far behind the first, and how far behind it that is. Where there is none, so many as
    /// there are.
    #[inline(always)]
    fn find(&self, far: usize) -> (usize, usize)
        ensures { IsMarkFound self.now.list.items far result.0 result.1 }
    {
        let mut left = far;
        let mut mark = 0;
        while mark < self.list.len() {
            let gap = self.list[mark].gap;
            if left < gap {
                return (mark, left);
            }
            left -= gap;
            mark += 1;
        }
        (mark, left)
    }

    /// How far behind the first this mark lies, or None where that is no number.
    #[inline(always)]
    fn before(&self, mark: usize) -> Option<usize>
        requires { mark ≤ length self.now.list.items }
        ensures { IfSome result (λ n. n ≡ gaps (take mark self.now.list.items)) }
    {
        let mut far: usize = 0;
        for k in 0..mark {
            let Some(sum) = far.checked_add(self.list[k].gap) else {
                return None;
            };
            far = sum;
        }
        Some(far)
    }

    /// A node has come behind that which lies so far behind the first mark's.
    pub(crate) fn widen(&mut self, far: usize) -> bool
        ensures { result ≡ true → Widens far self.old self.new }
    {
        let (at, _) = self.find(far);
        if at >= self.list.len() {
            return false;
        }
        let mark = self.list[at];
        let Some(gap) = mark.gap.checked_add(1) else {
            return false;
        };
        let Some(count) = self.count.checked_add(1) else {
            return false;
        };
        self.list[at] = Mark {
            at: mark.at,
            gap,
            key: mark.key,
        };
        self.count = count;
        true
    }

    /// The node so far behind the first mark's has gone, and in its place is one that lies at `next`.
    pub(crate) fn narrow(&mut self, far: usize, next: Place) -> bool
        ensures { result ≡ true → Narrows far next.ptr self.old self.new }
    {
        let (k, left) = self.find(far);
        if k >= self.list.len() {
            return false;
        }
        let mark = self.list[k];
        let Some(count) = self.count.checked_sub(1) else {
            return false;
        };
        if mark.gap <= 1 {
            return false;
        }
        self.list[k] = Mark {
            at: at_left(mark.at, left, next),
            gap: mark.gap - 1,
            key: mark.key,
        };
        self.count = count;
        true
    }

    /// Widens the way behind the last mark.
    pub(crate) fn reach(&mut self, more: usize) -> bool
        ensures { result ≡ true → (f n : ℕ) (places : List Ptr) → IsGroupAt f places n self.old → IsGroupAt f places n self.new }
    {
        let len = self.list.len();
        if len == 0 {
            return false;
        }
        let mark = self.list[len - 1];
        let Some(gap) = mark.gap.checked_add(more) else {
            return false;
        };
        let Some(count) = self.count.checked_add(more) else {
            return false;
        };
        self.list[len - 1] = Mark {
            at: mark.at,
            gap,
            key: mark.key,
        };
        self.count = count;
        true
    }

    /// Puts a mark with this key on the node so far behind the first mark's, which lies at `at`.
    pub(crate) fn put(&mut self, far: usize, at: Place, key: u64)
        ensures leads { LeadsWith far at.ptr self.old self.new }
        ensures count { self.new.count ≡ self.old.count }
    {
        let (k, left) = self.find(far);
        if k >= self.list.len() {
            return;
        }
        let mark = self.list[k];
        if left == 0 {
            self.list[k] = Mark {
                at: mark.at,
                gap: mark.gap,
                key,
            };
            return;
        }
        let more = Mark {
            at,
            gap: mark.gap - left,
            key,
        };
        if self.list.insert(k + 1, more).is_ok() {
            self.list[k] = Mark {
                at: mark.at,
                gap: left,
                key: mark.key,
            };
        }
    }

    /// How many marks have a key that is no greater than this, if their keys rise.
    #[inline(always)]
    fn until(&self, key: u64) -> usize
        ensures { result ≤ length self.now.list.items }
    {
        let mut low = 0;
        let mut high = self.list.len();
        while low < high {
            let middle = low + (high - low) / 2;
            if self.list[middle].key <= key {
                low = middle + 1;
            } else {
                high = middle;
            }
        }
        low
    }

    /// Where the node of the last mark lies whose key is no greater than this, and how far behind that of the first.
    pub(crate) fn last_until(&self, key: u64) -> Option<(Place, usize)>
        ensures { IfSome result (λ r. (f n : ℕ) (places : List Ptr) → IsGroupAt f places n self.now → LeadsTo f places (n + r.1) r.0.ptr) }
    {
        let marks = self.until(key);
        if marks == 0 {
            return None;
        }
        let Some(far) = self.before(marks - 1) else {
            return None;
        };
        Some((self.list[marks - 1].at, far))
    }

    /// Cuts it in two halves, and answers the second.
    pub(crate) fn split(&mut self, alloc: Global) -> Option<Group>
        ensures kept { MatchOption result (self.new.count ≡ self.old.count) (λ _. Unit {0}) }
        ensures cut { IsCutInto self.old self.new result }
    {
        let half = self.list.len() / 2;
        let Some(count) = self.before(half) else {
            return None;
        };
        let Some(rest) = self.count.checked_sub(count) else {
            return None;
        };
        let Ok(mut list) = Vec::with_capacity(alloc, FULL) else {
            return None;
        };
        if list.extend_from_slice(&self.list[half..]).is_err() {
            return None;
        }
        self.list.truncate(half);
        self.count = count;
        Some(Group { count: rest, list })
    }
}
