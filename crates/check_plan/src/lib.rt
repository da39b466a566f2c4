// R53 to R56, the check of a stored plan: shown as columns, and judged by them; its counts, and its columns for those
// who ask on. The columns are made once the head is read, for 64, 256 or 1,024 operations, so that a small plan costs
// no clearing of large ones.
#![tactic(auto)]

mod load;

ghost use Rattle.std.specs.Prelude.{◌≡◌, false, ◌*◌, ◌/◌, ◌≤◌, min, length};
ghost use Rattle.plan_format.specs.Sizes.{most_waits, most_signals, most_marks};
ghost use Rattle.plan_format.specs.Sizes.{wait_places, signal_places, mark_places};
ghost use Rattle.plan_format.specs.Form.{is_second};
ghost use Rattle.plan_format.specs.Stored.{scanned, plan_in};
ghost use Rattle.plan_order.specs.Promise.{Checked};
ghost use Rattle.check_columns.specs.Columns.{columns};
ghost use Rattle.check_columns.specs.Shown.{PlacesFor};
ghost use Rattle.check_load.specs.Loading.{HeadKnown, load_told};
ghost use Rattle.std.specs.Prelude.{Ok, Err};
ghost use Rattle.check_plan.specs.Counting.{outcome_told, SizesTold, CountsTold, counts_of, opened_of};
ghost use Rattle.check_plan.specs.Opening.{ReadPlan, OpenedPlan, LentKept, LentLeft, lent};
ghost use Rattle.check_plan.specs.Opening.{lent_of, cleared, Handed};
ghost use Rattle.check_plan.specs.declared.PlanColumns.{PlanColumns};
ghost use Rattle.check_plan.specs.declared.Opened.{Opened};

use check_columns::{MarkColumn, QueueColumn, SignalColumn, SignalValues, WaitColumn};
use check_load::Loaded;
use plan_format::Refusal;
use plan_format::limits::{
    HEAD_NUMBERS, HeadNumbers, MARK_PLACES, MOST_MARKS, MOST_OPERATIONS, MOST_SIGNALS, MOST_WAITS,
    SIGNAL_PLACES, WAIT_PLACES,
};
use stored_numbers::{FIRST_HEAD_NUMBERS, FirstHeadNumbers, Head};

// For how many operations columns are made; for all that a plan can have where it has more than either.
const SMALL_ROOM: usize = 64;

const MIDDLE_ROOM: usize = 256;

// Places for the waits, the signals and the marks of that many operations.
const SMALL_WAITS: usize = MOST_WAITS * SMALL_ROOM;

const SMALL_SIGNALS: usize = MOST_SIGNALS * SMALL_ROOM;

const SMALL_MARKS: usize = MOST_MARKS * SMALL_ROOM;

const MIDDLE_WAITS: usize = MOST_WAITS * MIDDLE_ROOM;

const MIDDLE_SIGNALS: usize = MOST_SIGNALS * MIDDLE_ROOM;

const MIDDLE_MARKS: usize = MOST_MARKS * MIDDLE_ROOM;

// How many queues, semaphores, buffers and operations a plan has.
#[derive(Clone, Copy, Debug, PartialEq, Eq, Hash)]
pub struct PlanCounts {
    pub queues: usize,
    pub semaphores: usize,
    pub buffers: usize,
    pub operations: usize,
}

// The counts of a plan, each 0 where the reader refuses it; and that the check passes it, or its first refusal.
#[derive(Clone, Copy, Debug, PartialEq, Eq, Hash)]
pub struct Counted {
    pub counts: PlanCounts,
    pub outcome: Result<(), Refusal>,
}

// The same, and how many signals and marks the plan has.
#[derive(Clone, Copy, Debug, PartialEq, Eq, Hash)]
pub struct Opened {
    pub counted: Counted,
    pub signals: usize,
    pub marks: usize,
}

// A plan in columns for those who ask further: the numbers before its operations; the queue of each operation; the
// operation that each wait rests on, three places to an operation; the semaphore, the value and the operation of each
// signal; the code and the operation of each mark.
#[derive(Drop)]
pub struct PlanColumns {
    pub head: HeadNumbers,
    pub queue: QueueColumn,
    pub source: WaitColumn,
    pub signal_semaphore: SignalColumn,
    pub signal_value: SignalValues,
    pub signal_operation: SignalColumn,
    pub mark: MarkColumn,
    pub mark_operation: MarkColumn,
}

// The counts of a stored plan, or the reader's refusal.
pub fn counts(plan: &[u8]) -> Result<PlanCounts, Refusal>
    ensures { CountsTold plan.now result }
{
    let mut head = [0u64; HEAD_NUMBERS];
    let h = stored_numbers::read_head(plan, &mut head)?;
    let mut queue = [0u16; MOST_OPERATIONS];
    let mut wsem = [0u16; WAIT_PLACES];
    let mut wval = [0u64; WAIT_PLACES];
    let mut ssem = [0u16; SIGNAL_PLACES];
    let mut sval = [0u64; SIGNAL_PLACES];
    let mut sop = [0u16; SIGNAL_PLACES];
    let mut mark = [0u16; MARK_PLACES];
    let mut mop = [0u16; MARK_PLACES];
    let loaded = load::columns(
        plan, h, &mut queue, &mut wsem, &mut wval, &mut ssem, &mut sval, &mut sop, &mut mark,
        &mut mop,
    )?;
    Ok(sizes(loaded))
}

// The check of a stored plan: the rows and the run in table and list; or the first refusal and its place.
pub fn check_plan(plan: &[u8], table: &mut [u32], list: &mut [u32]) -> Result<(), Refusal>
    ensures { Checked plan.now (outcome_told result) table.old table.new list.old list.new }
{
    check_counted(plan, table, list).outcome
}

// The check with the plan's counts beside its answer.
pub fn check_counted(plan: &[u8], table: &mut [u32], list: &mut [u32]) -> Counted
    ensures checked { Checked plan.now (outcome_told result.outcome) table.old table.new list.old list.new }
    ensures sizes { SizesTold plan.now result.counts }
{
    if stored_numbers::is_second(plan) {
        return in_second_form(plan, table, list);
    }
    in_first_form(plan, table, list)
}

// Of a plan in the first form, in columns by the number of its operations.
fn in_first_form(plan: &[u8], table: &mut [u32], list: &mut [u32]) -> Counted
    requires { is_second plan.now ≡ false }
    ensures checked { Checked plan.now (outcome_told result.outcome) table.old table.new list.old list.new }
    ensures sizes { SizesTold plan.now result.counts }
{
    let mut head = [0u64; FIRST_HEAD_NUMBERS];
    let h = match stored_numbers::read_first_head(plan, &mut head) {
        Ok(h) => h,
        Err(stop) => return unread(stop.reason.at(stop.at)).counted,
    };
    by_room(plan, h, &head, table, list)
}

// The same once the head is read.
fn by_room(
    plan: &[u8],
    h: Head,
    head: &FirstHeadNumbers,
    table: &mut [u32],
    list: &mut [u32],
) -> Counted
    requires { HeadKnown plan.now h head.now }
    ensures checked { Checked plan.now (outcome_told result.outcome) table.old table.new list.old list.new }
    ensures sizes { SizesTold plan.now result.counts }
{
    let many = h.operations as usize;
    if many <= SMALL_ROOM {
        return in_columns::<SMALL_WAITS, SMALL_SIGNALS, SMALL_MARKS>(plan, h, head, table, list);
    }
    if many <= MIDDLE_ROOM {
        return in_columns::<MIDDLE_WAITS, MIDDLE_SIGNALS, MIDDLE_MARKS>(plan, h, head, table, list);
    }
    in_columns::<WAIT_PLACES, SIGNAL_PLACES, MARK_PLACES>(plan, h, head, table, list)
}

// Of a plan in the second form, in columns for as many operations as a plan can have.
fn in_second_form(plan: &[u8], table: &mut [u32], list: &mut [u32]) -> Counted
    ensures checked { Checked plan.now (outcome_told result.outcome) table.old table.new list.old list.new }
    ensures sizes { SizesTold plan.now result.counts }
{
    let mut head = [0u64; HEAD_NUMBERS];
    let h = match stored_numbers::read_head(plan, &mut head) {
        Ok(h) => h,
        Err(stop) => return unread(stop.reason.at(stop.at)).counted,
    };
    in_columns::<WAIT_PLACES, SIGNAL_PLACES, MARK_PLACES>(plan, h, &head, table, list)
}

// With columns for so many waits, signals and marks.
fn in_columns<const WAITS: usize, const SIGNALS: usize, const MARKS: usize>(
    plan: &[u8],
    h: Head,
    head: &[u64],
    table: &mut [u32],
    list: &mut [u32],
) -> Counted
    requires known { HeadKnown plan.now h head.now }
    requires room { (most_waits * h.operations ≤ WAITS) × (most_signals * h.operations ≤ SIGNALS) ×
        (most_marks * h.operations ≤ MARKS) }
    requires within { (WAITS ≤ wait_places) × (SIGNALS ≤ signal_places) × (MARKS ≤ mark_places) }
    ensures checked { Checked plan.now (outcome_told result.outcome) table.old table.new list.old list.new }
    ensures sizes { SizesTold plan.now result.counts }
{
    let mut queue = [0u16; MOST_OPERATIONS];
    let mut source = [0u16; WAIT_PLACES];
    let mut wval = [0u64; WAITS];
    let mut ssem = [0u16; SIGNALS];
    let mut sval = [0u64; SIGNALS];
    let mut sop = [0u16; SIGNALS];
    let mut mark = [0u16; MARKS];
    let mut mop = [0u16; MARKS];
    let o = judged(
        plan,
        h,
        head,
        &mut queue,
        &mut source,
        &mut wval,
        &mut ssem,
        &mut sval,
        &mut sop,
        &mut mark,
        &mut mop,
        table,
        list,
    );
    o.counted
}

// The check for those who ask further: beside the answer and the counts, the plan in lent columns, which stay past the
// plan's own places. The places of n operations in the column of sources are unspecified where 7 or 8 is given. Where
// the reader refuses the plan, the places of as many operations as its head tells, three signals and seven marks to
// each, are unspecified.
pub fn check_opened(
    plan: &[u8],
    head: &mut HeadNumbers,
    queue: &mut QueueColumn,
    source: &mut WaitColumn,
    ssem: &mut SignalColumn,
    sval: &mut SignalValues,
    sop: &mut SignalColumn,
    mark: &mut MarkColumn,
    mop: &mut MarkColumn,
    table: &mut [u32],
    list: &mut [u32],
) -> Opened
    ensures checked { Checked plan.now (outcome_told result.counted.outcome) table.old table.new list.old list.new }
    ensures sizes { SizesTold plan.now result.counted.counts }
    ensures refused { ((scanned plan.now).fault.number ≡ 0 → ⊥) →
        (result.signals ≡ 0) × (result.marks ≡ 0) }
    ensures read { (scanned plan.now).fault.number ≡ 0 → ReadPlan (plan_in plan.now) result
        (lent head.new queue.new source.new ssem.new sval.new
        sop.new mark.new mop.new) }
    ensures opened { (outcome_told result.counted.outcome).number ≡ 0 → OpenedPlan (plan_in plan.now) result
        (lent head.new queue.new source.new ssem.new sval.new
        sop.new mark.new mop.new)
        table.new }
    ensures left { LentLeft plan.now result
        (lent head.old queue.old source.old ssem.old sval.old
        sop.old mark.old mop.old)
        (lent head.new queue.new source.new ssem.new sval.new
        sop.new mark.new mop.new) }
{
    let h = match stored_numbers::read_head(plan, head) {
        Ok(h) => h,
        Err(stop) => return unread(stop.reason.at(stop.at)),
    };
    let mut wval = [0u64; WAIT_PLACES];
    places(queue, source);
    judged(
        plan, h, head, queue, source, &mut wval, ssem, sval, sop, mark, mop, table, list,
    )
}

impl PlanColumns {
    // Columns of zeros.
    #[inline(always)]
    pub fn cleared() -> PlanColumns
        ensures { lent_of result ≡ cleared }
    {
        PlanColumns {
            head: [0; HEAD_NUMBERS],
            queue: [0; MOST_OPERATIONS],
            source: [0; WAIT_PLACES],
            signal_semaphore: [0; SIGNAL_PLACES],
            signal_value: [0; SIGNAL_PLACES],
            signal_operation: [0; SIGNAL_PLACES],
            mark: [0; MARK_PLACES],
            mark_operation: [0; MARK_PLACES],
        }
    }

    // The check as `check_opened` does it, in these columns.
    #[inline(always)]
    pub fn open(&mut self, plan: &[u8], table: &mut [u32], list: &mut [u32]) -> Opened
        ensures { Handed plan.now result (lent_of self.old) self.new table.old table.new list.old list.new }
    {
        check_opened(
            plan,
            &mut self.head,
            &mut self.queue,
            &mut self.source,
            &mut self.signal_semaphore,
            &mut self.signal_value,
            &mut self.signal_operation,
            &mut self.mark,
            &mut self.mark_operation,
            table,
            list,
        )
    }
}

// For how many operations a column of queues and one of waits have places. A call tells the proof how long two lent
// arrays are.
fn places(queue: &[u16], source: &[u16]) -> usize
    ensures { result ≡ min (length queue.now) (length source.now / most_waits) }
{
    queue.len().min(source.len() / MOST_WAITS)
}

// The check of a plan whose head is read, in columns with places for its operations.
fn judged(
    plan: &[u8],
    h: Head,
    head: &[u64],
    queue: &mut QueueColumn,
    source: &mut WaitColumn,
    wval: &mut [u64],
    ssem: &mut [u16],
    sval: &mut [u64],
    sop: &mut [u16],
    mark: &mut [u16],
    mop: &mut [u16],
    table: &mut [u32],
    list: &mut [u32],
) -> Opened
    requires { HeadKnown plan.now h head.now ×
        PlacesFor h.operations (columns queue.old source.old wval.old ssem.old sval.old sop.old
        mark.old mop.old) }
    ensures checked { Checked plan.now (outcome_told result.counted.outcome) table.old table.new list.old list.new }
    ensures sizes { SizesTold plan.now result.counted.counts }
    ensures refused { ((scanned plan.now).fault.number ≡ 0 → ⊥) →
        (result.signals ≡ 0) × (result.marks ≡ 0) }
    ensures read { (scanned plan.now).fault.number ≡ 0 → ReadPlan (plan_in plan.now) result
        (lent head.now queue.new source.new ssem.new sval.new
        sop.new mark.new mop.new) }
    ensures opened { (outcome_told result.counted.outcome).number ≡ 0 → OpenedPlan (plan_in plan.now) result
        (lent head.now queue.new source.new ssem.new sval.new
        sop.new mark.new mop.new) table.new }
    ensures kept { LentKept plan.now h.operations result
        (lent head.now queue.old source.old ssem.old sval.old
        sop.old mark.old mop.old)
        (lent head.now queue.new source.new ssem.new sval.new
        sop.new mark.new mop.new) }
{
    let l = match load::columns(plan, h, queue, source, wval, ssem, sval, sop, mark, mop) {
        Ok(l) => l,
        Err(e) => return unread(e),
    };
    let first = 2 + h.queues as usize;
    let owner = &head[first..];
    let outcome = check_passes::judge_columns(
        l.operations,
        l.semaphores as usize,
        l.signals as usize,
        l.marks as usize,
        owner,
        queue,
        source,
        wval,
        ssem,
        sval,
        sop,
        mark,
        mop,
        table,
        list,
    );
    with_lists(l, outcome)
}

// How many of each a loaded plan has.
fn sizes(l: Loaded) -> PlanCounts
    ensures { result ≡ counts_of (load_told (Ok l)) }
{
    PlanCounts {
        queues: l.queues as usize,
        semaphores: l.semaphores as usize,
        buffers: l.buffers as usize,
        operations: l.operations as usize,
    }
}

// A loaded plan, beside what the check says of it.
fn with_lists(l: Loaded, outcome: Result<(), Refusal>) -> Opened
    ensures { result ≡ opened_of (load_told (Ok l)) outcome }
{
    Opened {
        counted: Counted {
            counts: sizes(l),
            outcome,
        },
        signals: l.signals as usize,
        marks: l.marks as usize,
    }
}

// The reader's refusal, beside which there are no counts.
fn unread(e: Refusal) -> Opened
    ensures { result ≡ opened_of (load_told (Err e)) (Err e) }
{
    Opened {
        counted: Counted {
            counts: PlanCounts {
                queues: 0,
                semaphores: 0,
                buffers: 0,
                operations: 0,
            },
            outcome: Err(e),
        },
        signals: 0,
        marks: 0,
    }
}
