//! Which numbers are free, in use or retired.

ghost use Rattle.std.specs.Prelude.{◌≡◌, ◌≢◌, ◌<◌, ◌≤◌, ℕ, length, map, replicate, count_by, slice_index, slice_set, ◌+◌, ◌-◌, IfOk};
ghost use Rattle.std.specs.Prelude.{true, IfSome, OnOk, slice_index_or, None, []};
ghost use Rattle.block_reclamation.specs.Copies as copies;
ghost use Rattle.block_pool.specs.Chains.{stack_of};
ghost use Rattle.block_reclamation.specs.declared.status.BlockStatus.TheVariants.{Free, Granted, Used, Retired};
ghost use Rattle.block_reclamation.specs.Status.{is_free, is_in_use, is_retired, is_reclaimable, most_blocks, recycled};
ghost use Rattle.block_pool.specs.Pools.{marked, retired, is_in_use_at, is_used_at};
ghost use Rattle.block_pool.specs.Kept.{status_of, popped, AreNeeded, HasPins, top_of, moved, taken_off};

use crate::pages::{Blank, Pages};
use crate::stacks::LinkedStacks;
use block_reclamation::{BlockStatus, PinCopy, SEATS};
use std::alloc::{AllocError, Global};

/// When a retired block was first listed, and when it was left out.
#[derive(Clone, Copy)]
struct Dates {
    birth: u64,
    retirement: u64,
}

/// What a used block is once it is retired.
fn after_retiring(status: BlockStatus, version: u64) -> BlockStatus
    ensures { result ≡ retired version status }
{
    match status {
        BlockStatus::Used { birth } => BlockStatus::Retired {
            birth,
            retirement: version,
        },
        _ => status,
    }
}

/// The stack, behind those of the seats, of the numbers that were retired since the last collection, or that a seat let
/// go of: the next collection looks at each.
pub(crate) const LOOSE: usize = 16;

/// The stack of the numbers that were retired after what the last collection reached.
pub(crate) const LATE: usize = 17;

impl Blank for BlockStatus {
    ghost use Rattle.block_reclamation.specs.declared.status.BlockStatus.TheVariants.{Free};

    ghost blank = { λ _. Free };

    fn blank(_place: usize) -> BlockStatus {
        BlockStatus::Free
    }
}

/// What each number is, a list of the free ones, and stacks of the retired ones. A page of them takes memory at the first
/// grant of one of its numbers, or of so many numbers that its places may be needed.
#[derive(Debug, Drop)]
pub(crate) struct Numbers {
    pub statuses: Pages<BlockStatus>,
    /// The first `free_len` are the free numbers, the next one to be granted last; the rest is room. A place that was never
    /// written has its own number.
    pub free: Pages<u32>,
    pub free_len: usize,
    /// The retired numbers: one stack for each seat, of those that its settled pin needs, and then `LOOSE` and `LATE`.
    pub retired: LinkedStacks,
    pub retired_len: usize,
    /// For each seat the settled pin that its stack stands under.
    pub pins: [Option<u64>; SEATS],
    /// No number in the stack `LATE` was retired with a lesser version.
    pub least: u64,
}

impl Numbers {
    ghost use Rattle.block_pool.specs.Kept.{statuses, IsNumbers, IsSame, IsRoomier, IsReadyNumber, HasRooms, FitsWitness};

    /// The numbers 0 to `count` - 1, all free.
    pub fn all_free(alloc: Global, count: u32) -> Result<Numbers, AllocError>
        requires { count ≤ most_blocks }
        ensures kept { IfOk result (λ n. IsNumbers n) }
        ensures statuses { IfOk result (λ n. statuses n ≡ replicate count Free) }
    {
        let len = count as usize;
        Ok(Numbers {
            statuses: Pages::new(alloc, len)?,
            free: Pages::new(alloc, len)?,
            free_len: len,
            retired: LinkedStacks::new(alloc, count, 18)?,
            retired_len: 0,
            pins: [None; SEATS],
            least: u64::MAX,
        })
    }

    /// How many are free.
    pub fn free(&self) -> usize
        requires { IsNumbers self.now }
        ensures { result ≡ count_by is_free (statuses self.now) }
    {
        self.free_len
    }

    /// How many are retired.
    pub fn retired(&self) -> usize
        requires { IsNumbers self.now }
        ensures { result ≡ count_by is_retired (statuses self.now) }
    {
        self.retired_len
    }

    /// How many are in use.
    pub fn used(&self) -> usize
        requires { IsNumbers self.now }
        ensures { result ≡ count_by is_in_use (statuses self.now) }
    {
        self.statuses.len() - self.free_len - self.retired_len
    }

    /// Takes the memory that is needed to grant the number before so many others, and tells which it is. Where memory is
    /// refused, each number is as it was.
    pub fn make_ready(&mut self, before: usize) -> Result<u32, AllocError>
        requires kept { IsNumbers self.old }
        requires some { before < self.old.free_len }
        ensures kept { IsNumbers self.new }
        ensures same { IsRoomier self.old self.new }
        ensures number { IfOk result (λ n. n ≡ slice_index self.old.free.items (self.old.free_len - 1 - before)) }
        ensures ready { OnOk result (IsReadyNumber self.new before) }
    {
        let place = self.free_len - 1 - before;
        let number = self.free.get(place);
        self.statuses.make(number as usize)?;
        self.retired.make(number)?;
        self.free.make(place)?;
        Ok(number)
    }

    /// Grants the last `count` of the free numbers, which have their memory.
    pub fn use_last(&mut self, count: usize)
        requires kept { IsNumbers self.old }
        requires enough { count ≤ self.old.free_len }
        requires ready { (before : ℕ) → before < count → IsReadyNumber self.old before }
        ensures kept { IsNumbers self.new }
        ensures statuses { statuses self.new ≡ marked (popped self.old.free.items self.old.free_len count) Granted
            (statuses self.old) }
    {
        let mut left = count;
        'grant: while left > 0 {
            self.use_one();
            left -= 1;
        }
    }

    /// Grants the last of the free numbers, which has its memory.
    fn use_one(&mut self)
        requires kept { IsNumbers self.old }
        requires some { 0 < self.old.free_len }
        requires ready { IsReadyNumber self.old 0 }
        ensures kept { IsNumbers self.new }
        ensures statuses { statuses self.new ≡ slice_set (statuses self.old)
            (slice_index self.old.free.items (self.old.free_len - 1)) Granted }
        ensures shorter { self.new.free_len ≡ self.old.free_len - 1 }
        ensures room { self.new.free.items ≡ self.old.free.items }
        ensures rooms { HasRooms self.old self.new }
    {
        self.free_len -= 1;
        let number = self.free.get(self.free_len);
        self.statuses.set(number as usize, BlockStatus::Granted);
    }

    /// Makes a number in use free.
    pub fn give_back(&mut self, number: u32)
        requires kept { IsNumbers self.old }
        requires in_use { is_in_use_at (statuses self.old) number ≡ true }
        ensures kept { IsNumbers self.new }
        ensures statuses { statuses self.new ≡ slice_set (statuses self.old) number Free }
    {
        self.statuses.set(number as usize, BlockStatus::Free);
        self.free.set(self.free_len, number);
        self.free_len += 1;
    }

    /// Notes the version that first lists a number in use.
    pub fn born(&mut self, number: u32, version: u64)
        requires kept { IsNumbers self.old }
        requires in_use { is_in_use_at (statuses self.old) number ≡ true }
        ensures kept { IsNumbers self.new }
        ensures statuses { statuses self.new ≡ slice_set (statuses self.old) number (Used version) }
    {
        self.statuses
            .set(number as usize, BlockStatus::Used { birth: version });
    }

    /// Retires a born number with the number of a version.
    pub fn retire(&mut self, number: u32, version: u64)
        requires kept { IsNumbers self.old }
        requires born { is_used_at (statuses self.old) number ≡ true }
        ensures kept { IsNumbers self.new }
        ensures statuses { statuses self.new ≡ slice_set (statuses self.old) number
            (retired version (status_of (statuses self.old) number)) }
    {
        let status = self.statuses.get(number as usize);
        self.statuses
            .set(number as usize, after_retiring(status, version));
        self.retired.push(LOOSE, number);
        self.retired_len += 1;
    }

    /// Frees each retired number that the copy doesn't need, and tells how many. It looks at those that were retired
    /// since the last call, at those that stood under a pin that the copy hasn't, and at the late ones where the copy
    /// reaches one of them.
    pub fn recycle(&mut self, copy: &PinCopy) -> u32
        requires { IsNumbers self.old }
        ensures kept { IsNumbers self.new }
        ensures statuses { statuses self.new ≡ map (recycled copy.now) (statuses self.old) }
        ensures count { result ≡ count_by (is_reclaimable copy.now) (statuses self.old) }
    {
        self.follow(copy);
        self.recall(copy);
        self.sort(copy)
    }

    /// Lets go of what stands under pins that the copy hasn't.
    fn follow(&mut self, copy: &PinCopy)
        requires { IsNumbers self.old }
        ensures kept { IsNumbers self.new }
        ensures statuses { statuses self.new ≡ statuses self.old }
        ensures pins { HasPins copy.now self.new.pins }
    {
        for seat in 0..SEATS {
            self.repin(seat, copy.settled[seat]);
        }
    }

    /// Sets the pin that a seat's stack stands under; where it is another one, lets go of what is in the stack.
    fn repin(&mut self, seat: usize, pin: Option<u64>)
        requires kept { IsNumbers self.old }
        requires seat { seat < SEATS }
        ensures kept { IsNumbers self.new }
        ensures statuses { statuses self.new ≡ statuses self.old }
        ensures pins { self.new.pins ≡ slice_set self.old.pins seat pin }
        ensures still { slice_index_or self.old.pins seat None ≡ pin → self.new ≡ self.old }
    {
        if self.pins[seat] == pin {
            return;
        }
        self.loosen(seat);
        self.pins[seat] = pin;
    }

    /// Lets go of the late numbers where one of them may be reached.
    fn recall(&mut self, copy: &PinCopy)
        requires { IsNumbers self.old }
        ensures kept { IsNumbers self.new }
        ensures same { IsSame self.old self.new }
        ensures late { AreNeeded copy.now (statuses self.new) (stack_of self.new.retired.lists LATE) }
        ensures still { copies.reach_of copy.now < self.old.least → self.new ≡ self.old }
    {
        if copy.reach() < self.least {
            return;
        }
        self.loosen(LATE);
        self.least = u64::MAX;
    }

    /// Moves a stack's numbers to the loose ones.
    fn loosen(&mut self, stack: usize)
        requires kept { IsNumbers self.old }
        requires within { stack ≤ LATE }
        requires other { stack ≢ LOOSE }
        ensures kept { IsNumbers self.new }
        ensures same { IsSame self.old self.new }
        ensures least { self.new.least ≡ self.old.least }
        ensures empty { stack_of self.new.retired.lists stack ≡ [] }
    {
        'loosen: while self.retired.height(stack) > 0 {
            self.move_top(stack, LOOSE);
        }
    }

    /// Moves the top of a stack to another one.
    fn move_top(&mut self, from: usize, to: usize)
        requires kept { IsNumbers self.old }
        requires from { from ≤ LATE }
        requires to { to ≤ LATE }
        requires other { from ≢ to }
        requires some { 0 < length (stack_of self.old.retired.lists from) }
        requires fits { FitsWitness (statuses self.old) self.old.pins self.old.least to (top_of (stack_of self.old.retired.lists from)) }
        ensures kept { IsNumbers self.new }
        ensures same { IsSame self.old self.new }
        ensures least { self.new.least ≡ self.old.least }
        ensures lists { self.new.retired.lists ≡ moved from to self.old.retired.lists }
    {
        let number = self.retired.top(from);
        self.retired.pop(from);
        self.retired.push(to, number);
    }

    /// Frees each loose number that the copy doesn't need, puts the others under pins that need them or to the late
    /// ones, and tells how many were freed.
    fn sort(&mut self, copy: &PinCopy) -> u32
        requires kept { IsNumbers self.old }
        requires pins { HasPins copy.now self.old.pins }
        requires late { AreNeeded copy.now (statuses self.old) (stack_of self.old.retired.lists LATE) }
        ensures kept { IsNumbers self.new }
        ensures statuses { statuses self.new ≡ map (recycled copy.now) (statuses self.old) }
        ensures count { result ≡ count_by (is_reclaimable copy.now) (statuses self.old) }
    {
        let floor = copy.floor();
        let mut count: u32 = 0;
        'sort: while self.retired.height(LOOSE) > 0 {
            count += self.sort_top(copy, floor);
        }
        count
    }

    /// Frees the top of the loose numbers, or puts it under a pin that needs it, or to the late ones; 1 where it was freed.
    fn sort_top(&mut self, copy: &PinCopy, floor: u64) -> u32
        requires kept { IsNumbers self.old }
        requires floor { floor ≡ copies.floor_of copy.now }
        requires pins { HasPins copy.now self.old.pins }
        requires late { AreNeeded copy.now (statuses self.old) (stack_of self.old.retired.lists LATE) }
        requires some { 0 < length (stack_of self.old.retired.lists LOOSE) }
        ensures kept { IsNumbers self.new }
        ensures pins { self.new.pins ≡ self.old.pins }
        ensures late { AreNeeded copy.now (statuses self.new) (stack_of self.new.retired.lists LATE) }
        ensures shorter { length (stack_of self.new.retired.lists LOOSE) + 1 ≡ length (stack_of self.old.retired.lists LOOSE) }
        ensures recycled { map (recycled copy.now) (statuses self.new) ≡ map (recycled copy.now) (statuses self.old) }
        ensures count { result + count_by (is_reclaimable copy.now) (statuses self.new)
            ≡ count_by (is_reclaimable copy.now) (statuses self.old) }
    {
        let number = self.retired.top(LOOSE);
        let dates = self.dates_of(number);
        if !is_needed(copy, floor, dates) {
            self.release_top();
            return 1;
        }
        if let Some(seat) = witness(copy, dates) {
            self.move_top(LOOSE, seat);
            return 0;
        }
        self.least = self.least.min(dates.retirement);
        self.move_top(LOOSE, LATE);
        0
    }

    /// The versions that first listed and that retired a retired number.
    fn dates_of(&self, number: u32) -> Dates
        requires within { number < length self.now.statuses.items }
        requires retired { is_retired (status_of (statuses self.now) number) ≡ true }
        ensures { status_of (statuses self.now) number ≡ Retired result.birth result.retirement }
    {
        match self.statuses.get(number as usize) {
            BlockStatus::Retired { birth, retirement } => Dates { birth, retirement },
            BlockStatus::Free => unreachable!(),
            BlockStatus::Granted => unreachable!(),
            BlockStatus::Used { .. } => unreachable!(),
        }
    }

    /// Makes the top of the loose numbers free, and the next one to be granted: what is kept of it, and its block, were used
    /// last, and may still be in a cache.
    fn release_top(&mut self)
        requires kept { IsNumbers self.old }
        requires some { 0 < length (stack_of self.old.retired.lists LOOSE) }
        ensures kept { IsNumbers self.new }
        ensures pins { self.new.pins ≡ self.old.pins }
        ensures lists { self.new.retired.lists ≡ taken_off LOOSE self.old.retired.lists }
        ensures statuses { statuses self.new ≡ slice_set (statuses self.old) (top_of (stack_of self.old.retired.lists LOOSE)) Free }
    {
        let number = self.retired.top(LOOSE);
        self.retired.pop(LOOSE);
        self.retired_len -= 1;
        self.statuses.set(number as usize, BlockStatus::Free);
        self.free.set(self.free_len, number);
        self.free_len += 1;
    }
}

/// Whether a copy with this floor needs a block of these dates. It needs none that was retired at the floor or before: mostly that
/// tells it of all, and no pin is looked at.
fn is_needed(copy: &PinCopy, floor: u64, dates: Dates) -> bool
    requires { floor ≡ copies.floor_of copy.now }
    ensures { result ≡ copies.needs copy.now dates.birth dates.retirement }
{
    floor < dates.retirement && copy.needs(dates.birth, dates.retirement)
}

/// The first seat whose settled pin needs a block of these dates.
fn witness(copy: &PinCopy, dates: Dates) -> Option<usize>
    ensures { IfSome result (λ seat. (seat < SEATS)
        × (copies.is_between dates.birth dates.retirement (slice_index_or copy.now.settled seat None) ≡ true)) }
{
    for seat in 0..SEATS {
        if is_between(copy.settled[seat], dates) {
            return Some(seat);
        }
    }
    None
}

/// Whether a settled pin holds a version that listed a block of these dates.
fn is_between(pin: Option<u64>, dates: Dates) -> bool
    ensures { result ≡ copies.is_between dates.birth dates.retirement pin }
{
    match pin {
        Some(pin) => dates.birth <= pin && pin < dates.retirement,
        None => false,
    }
}
