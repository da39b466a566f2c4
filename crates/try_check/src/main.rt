// The small plans of R79, others and bad input through the check: what is handed back, and the lent table and list,
// which hold 7s before.
#![tactic(auto)]

ghost use Rattle.std.specs.Prelude.{◌≡◌, ◌+◌, ◌<◌, ◌≤◌, length};

use plan_format::Refusal;

// The plan T3: three queues, two semaphores, one buffer, three operations.
fn t3() -> [u8; 96]
    ensures { length result ≡ 96 }
{
    *b"\x03\x01\x00\x00\x00\x00\x00\x00\x00\x02\x00\x00\x00\x00\x00\x00\x00\x03\x00\x00\x00\x00\x00\x00\x00\x02\x00\x01\x01\x00\x00\x10\x00\x00\x03\x00\x00\x00\x01\x00\x01\x00\x00\x00\x00\x00\x00\x00\x01\x00\x00\x00\x01\x01\x00\x01\x00\x00\x00\x00\x00\x00\x00\x01\x01\x01\x00\x00\x00\x00\x00\x00\x00\x02\x00\x00\x00\x00\x00\x01\x02\x01\x01\x01\x00\x00\x00\x00\x00\x00\x00\x00\x01\x00\x00\x00"
}

fn text(rt: &impl Print, words: &[u8]) {
    let _ = rt.write_all(words);
}

fn line_end(rt: &impl Print) {
    text(rt, b"\n");
}

fn number(rt: &impl Print, n: u64) {
    text(rt, b" ");
    let _ = rt.print(n);
}

// A new line before every sixteenth number.
fn turn(rt: &impl Print, i: usize) {
    if i % 16 == 0 {
        text(rt, b"\n   ");
    }
}

// The first numbers of a table or a list.
fn numbers(rt: &impl Print, a: &[u32; 128], many: usize)
    requires { many ≤ 128 }
{
    let mut i = 0;
    while i < many {
        turn(rt, i);
        number(rt, u64::from(a[i]));
        i += 1;
    }
    line_end(rt);
}

// The counts of a plan, after two zeros; or a refusal and its place, and four zeros.
fn sizes(rt: &impl Print, plan: &[u8]) {
    text(rt, b"  counts");
    match check_plan::counts(plan) {
        Ok(c) => {
            number(rt, 0);
            number(rt, 0);
            number(rt, c.queues as u64);
            number(rt, c.semaphores as u64);
            number(rt, c.buffers as u64);
            number(rt, c.operations as u64);
        }
        Err(e) => {
            number(rt, u64::from(e.reason.number()));
            number(rt, e.place);
            for _k in 0..4 {
                number(rt, 0);
            }
        }
    }
    line_end(rt);
}

fn show(rt: &impl Print, outcome: Result<(), Refusal>) {
    text(rt, b"  check");
    match outcome {
        Ok(()) => {
            number(rt, 0);
            number(rt, 0);
        }
        Err(e) => {
            number(rt, u64::from(e.reason.number()));
            number(rt, e.place);
        }
    }
    number(rt, 0);
}

// A plan through the check, with a table and a list of these lengths.
fn check(rt: &impl Print, name: &[u8], plan: &[u8], table: usize, list: usize)
    requires { (table ≤ 128) × (list ≤ 128) }
{
    text(rt, name);
    line_end(rt);
    sizes(rt, plan);
    let mut rows = [7u32; 128];
    let mut run = [7u32; 128];
    show(
        rt,
        check_plan::check_plan(plan, &mut rows[..table], &mut run[..list]),
    );
    text(rt, b"\n  table");
    numbers(rt, &rows, table);
    text(rt, b"  list");
    numbers(rt, &run, list);
}

// T3 with a table and a list of these lengths.
fn room(rt: &impl Print, table: usize, list: usize)
    requires { (table ≤ 128) × (list ≤ 128) }
{
    let plan = t3();
    check(rt, b"T3 in other room", &plan, table, list);
}

// Whether each number is still 7.
fn kept(a: &[u32; 128]) -> bool {
    let mut same = true;
    for i in 0..128usize {
        if a[i] != 7 {
            same = false;
        }
    }
    same
}

fn show_kept(rt: &impl Print, same: bool) {
    if same {
        text(rt, b" kept");
    } else {
        text(rt, b" changed");
    }
}

// A plan through the check with room enough: on a line what is handed back, then for table and list whether each number
// is kept.
fn check_kept(rt: &impl Print, plan: &[u8]) {
    let mut rows = [7u32; 128];
    let mut run = [7u32; 128];
    show(rt, check_plan::check_plan(plan, &mut rows, &mut run));
    show_kept(rt, kept(&rows));
    show_kept(rt, kept(&run));
    line_end(rt);
}

// T3, cut after `n` bytes.
fn cut(rt: &impl Print, n: usize)
    requires { n ≤ 96 }
{
    let plan = t3();
    check_kept(rt, &plan[..n]);
}

// Every cut of T3, and T3.
fn cuts(rt: &impl Print) {
    for n in 0..97usize {
        cut(rt, n);
    }
}

// T3 with one byte changed, cut after `n` bytes.
fn changed_cut(rt: &impl Print, at: usize, byte: u8, n: usize)
    requires { (at < 96) × (n ≤ 96) }
{
    let mut plan = t3();
    plan[at] = byte;
    check_kept(rt, &plan[..n]);
}

// T3 with one byte changed.
fn changed(rt: &impl Print, at: usize, byte: u8)
    requires { at < 96 }
{
    let mut plan = t3();
    plan[at] = byte;
    check_kept(rt, &plan);
}

// T3 with the two bytes of a number changed.
fn changed_pair(rt: &impl Print, at: usize, low: u8, high: u8)
    requires { at + 1 < 96 }
{
    let mut plan = t3();
    plan[at] = low;
    plan[at + 1] = high;
    check_kept(rt, &plan);
}

// 96 zeros and a megabyte of them.
fn zeros() -> [u8; 1048672]
    ensures { length result ≡ 1048672 }
{
    [0; 1048672]
}

// T3 with zeros after it.
fn longer(rt: &impl Print, more: usize)
    requires { more ≤ 1048576 }
{
    let plan = t3();
    let mut long = zeros();
    let mut i = 0;
    while i < 96 {
        long[i] = plan[i];
        i += 1;
    }
    check_kept(rt, &long[..96 + more]);
}

// T1 to T3, and faults of length and count beside them.
fn first_plans(rt: &impl Print) {
    let plan = t3();
    check(rt, b"T1", b"\x00\x00\x00\x00\x00\x00", 1, 1);
    check(rt, b"T1, one byte less", b"\x00\x00\x00\x00\x00", 1, 1);
    check(
        rt,
        b"T1, one byte more",
        b"\x00\x00\x00\x00\x00\x00\x00",
        1,
        1,
    );
    check(
        rt,
        b"T2",
        b"\x01\x07\x00\x00\x00\x00\x00\x00\x00\x00\x00\x00\x01\x00\x00\x00\x00\x00",
        17,
        3,
    );
    check(rt, b"seventeen queues", b"\x11\x00\x00\x00\x00\x00", 1, 1);
    check(rt, b"T3", &plan, 49, 7);
}

// T4 to T8.
fn waiting_plans(rt: &impl Print) {
    check(
        rt,
        b"T4",
        b"\x02\x01\x00\x00\x00\x00\x00\x00\x00\x02\x00\x00\x00\x00\x00\x00\x00\x02\x00\x01\x00\x00\x02\x00\x00\x01\x01\x01\x00\x00\x00\x00\x00\x00\x00\x01\x00\x01\x00\x00\x00\x00\x00\x00\x00\x00\x01\x01\x00\x01\x00\x00\x00\x00\x00\x00\x00\x01\x01\x01\x00\x00\x00\x00\x00\x00\x00\x00",
        33,
        5,
    );
    check(
        rt,
        b"T5",
        b"\x01\x01\x00\x00\x00\x00\x00\x00\x00\x01\x00\x00\x00\x01\x00\x00\x01\x00\x01\x00\x00\x00\x00\x00\x00\x00\x01\x00\x01\x00\x00\x00\x00\x00\x00\x00\x00",
        17,
        3,
    );
    check(
        rt,
        b"T6",
        b"\x02\x01\x00\x00\x00\x00\x00\x00\x00\x02\x00\x00\x00\x00\x00\x00\x00\x01\x00\x00\x00\x02\x00\x01\x01\x00\x01\x00\x00\x00\x00\x00\x00\x00\x00\x00\x00\x00\x01\x00\x01\x00\x00\x00\x00\x00\x00\x00\x00",
        33,
        5,
    );
    check(
        rt,
        b"T7",
        b"\x02\x01\x00\x00\x00\x00\x00\x00\x00\x02\x00\x00\x00\x00\x00\x00\x00\x01\x00\x00\x00\x06\x00\x00\x00\x01\x00\x01\x00\x00\x00\x00\x00\x00\x00\x00\x00\x00\x01\x00\x02\x00\x00\x00\x00\x00\x00\x00\x00\x00\x00\x01\x00\x03\x00\x00\x00\x00\x00\x00\x00\x00\x00\x00\x01\x00\x04\x00\x00\x00\x00\x00\x00\x00\x00\x00\x00\x01\x00\x05\x00\x00\x00\x00\x00\x00\x00\x00\x01\x01\x00\x02\x00\x00\x00\x00\x00\x00\x00\x00\x00",
        97,
        13,
    );
    check(
        rt,
        b"T8",
        b"\x02\x01\x00\x00\x00\x00\x00\x00\x00\x02\x00\x00\x00\x00\x00\x00\x00\x01\x00\x00\x00\x03\x00\x00\x00\x01\x00\x03\x00\x00\x00\x00\x00\x00\x00\x00\x00\x00\x01\x00\x07\x00\x00\x00\x00\x00\x00\x00\x00\x01\x01\x00\x04\x00\x00\x00\x00\x00\x00\x00\x00\x00",
        49,
        7,
    );
    check(
        rt,
        b"T8, a wait for 8",
        b"\x02\x01\x00\x00\x00\x00\x00\x00\x00\x02\x00\x00\x00\x00\x00\x00\x00\x01\x00\x00\x00\x03\x00\x00\x00\x01\x00\x03\x00\x00\x00\x00\x00\x00\x00\x00\x00\x00\x01\x00\x07\x00\x00\x00\x00\x00\x00\x00\x00\x01\x01\x00\x08\x00\x00\x00\x00\x00\x00\x00\x00\x00",
        49,
        7,
    );
}

// T9 to T11.
fn marked_plans(rt: &impl Print) {
    check(
        rt,
        b"T9",
        b"\x02\x01\x00\x00\x00\x00\x00\x00\x00\x02\x00\x00\x00\x00\x00\x00\x00\x00\x01\x00\x40\x00\x00\x00\x02\x00\x00\x00\x00\x02\x00\x00\x00\x00\x00\x01\x01\x00\x00\x01\x00\x00\x00",
        33,
        5,
    );
    check(
        rt,
        b"T10",
        b"\x01\x01\x00\x00\x00\x00\x00\x00\x00\x00\x01\x00\x40\x00\x00\x00\x01\x00\x00\x00\x00\x02\x00\x00\x01\x00\x00\x00",
        17,
        3,
    );
    check(
        rt,
        b"T11",
        b"\x02\x01\x00\x00\x00\x00\x00\x00\x00\x02\x00\x00\x00\x00\x00\x00\x00\x00\x01\x00\x40\x00\x00\x00\x02\x00\x00\x00\x00\x01\x00\x00\x00\x01\x00\x00\x01\x00\x00\x01",
        33,
        5,
    );
}

// Signals at the edges of what is allowed.
fn signals(rt: &impl Print) {
    check(
        rt,
        b"a signal by another queue",
        b"\x02\x01\x00\x00\x00\x00\x00\x00\x00\x02\x00\x00\x00\x00\x00\x00\x00\x01\x00\x00\x00\x01\x00\x01\x00\x01\x00\x01\x00\x00\x00\x00\x00\x00\x00\x00",
        17,
        3,
    );
    check(
        rt,
        b"a signal of 0",
        b"\x01\x01\x00\x00\x00\x00\x00\x00\x00\x01\x00\x00\x00\x01\x00\x00\x00\x01\x00\x00\x00\x00\x00\x00\x00\x00\x00\x00",
        17,
        3,
    );
    check(
        rt,
        b"a signal of the greatest number",
        b"\x01\x01\x00\x00\x00\x00\x00\x00\x00\x01\x00\x00\x00\x01\x00\x00\x00\x01\x00\xff\xff\xff\xff\xff\xff\xff\xff\x00",
        17,
        3,
    );
    check(
        rt,
        b"the greatest number twice",
        b"\x01\x01\x00\x00\x00\x00\x00\x00\x00\x01\x00\x00\x00\x02\x00\x00\x00\x01\x00\xff\xff\xff\xff\xff\xff\xff\xff\x00\x00\x00\x01\x00\xff\xff\xff\xff\xff\xff\xff\xff\x00",
        33,
        5,
    );
}

// T14 to T17: a semaphore that several queues signal.
fn handed_plans(rt: &impl Print) {
    check(
        rt,
        b"T14",
        b"\x03\x01\x00\x00\x00\x00\x00\x00\x00\x02\x00\x00\x00\x00\x00\x00\x00\x03\x00\x00\x00\x00\x00\x00\x00\x01\x00\x00\x00\x03\x00\x00\x00\x01\x00\x01\x00\x00\x00\x00\x00\x00\x00\x00\x01\x01\x00\x01\x00\x00\x00\x00\x00\x00\x00\x01\x00\x02\x00\x00\x00\x00\x00\x00\x00\x00\x02\x01\x00\x02\x00\x00\x00\x00\x00\x00\x00\x00\x00",
        49,
        7,
    );
    check(
        rt,
        b"T14, owned by queue 2",
        b"\x03\x01\x00\x00\x00\x00\x00\x00\x00\x02\x00\x00\x00\x00\x00\x00\x00\x03\x00\x00\x00\x00\x00\x00\x00\x01\x02\x00\x00\x03\x00\x00\x00\x01\x00\x01\x00\x00\x00\x00\x00\x00\x00\x00\x01\x01\x00\x01\x00\x00\x00\x00\x00\x00\x00\x01\x00\x02\x00\x00\x00\x00\x00\x00\x00\x00\x02\x01\x00\x02\x00\x00\x00\x00\x00\x00\x00\x00\x00",
        49,
        7,
    );
    check(
        rt,
        b"T15",
        b"\x02\x01\x00\x00\x00\x00\x00\x00\x00\x02\x00\x00\x00\x00\x00\x00\x00\x01\x00\x00\x00\x02\x00\x00\x00\x01\x00\x01\x00\x00\x00\x00\x00\x00\x00\x00\x01\x00\x01\x00\x02\x00\x00\x00\x00\x00\x00\x00\x00",
        33,
        5,
    );
    check(
        rt,
        b"T15, in one operation",
        b"\x01\x01\x00\x00\x00\x00\x00\x00\x00\x01\x00\x00\x00\x01\x00\x00\x00\x02\x00\x01\x00\x00\x00\x00\x00\x00\x00\x00\x02\x00\x00\x00\x00\x00\x00\x00\x00",
        17,
        3,
    );
    check(
        rt,
        b"T16",
        b"\x02\x01\x00\x00\x00\x00\x00\x00\x00\x02\x00\x00\x00\x00\x00\x00\x00\x01\x00\x00\x00\x03\x00\x00\x00\x01\x00\x01\x00\x00\x00\x00\x00\x00\x00\x00\x01\x01\x00\x01\x00\x00\x00\x00\x00\x00\x00\x01\x00\x02\x00\x00\x00\x00\x00\x00\x00\x00\x00\x00\x01\x00\x03\x00\x00\x00\x00\x00\x00\x00\x00",
        49,
        7,
    );
    check(
        rt,
        b"T16, a wait for 2",
        b"\x02\x01\x00\x00\x00\x00\x00\x00\x00\x02\x00\x00\x00\x00\x00\x00\x00\x01\x00\x00\x00\x03\x00\x00\x00\x01\x00\x01\x00\x00\x00\x00\x00\x00\x00\x00\x01\x01\x00\x01\x00\x00\x00\x00\x00\x00\x00\x01\x00\x02\x00\x00\x00\x00\x00\x00\x00\x00\x00\x01\x00\x02\x00\x00\x00\x00\x00\x00\x00\x01\x00\x03\x00\x00\x00\x00\x00\x00\x00\x00",
        49,
        7,
    );
    check(
        rt,
        b"T17",
        b"\x02\x01\x00\x00\x00\x00\x00\x00\x00\x02\x00\x00\x00\x00\x00\x00\x00\x02\x01\x00\x00\x00\x02\x00\x01\x01\x01\x01\x00\x00\x00\x00\x00\x00\x00\x01\x00\x01\x00\x00\x00\x00\x00\x00\x00\x00\x00\x00\x02\x01\x01\x00\x00\x00\x00\x00\x00\x00\x00\x02\x00\x00\x00\x00\x00\x00\x00\x00",
        33,
        5,
    );
}

// T18 and T19: which refusal comes first, and a wait that a higher signal does not meet.
fn which_first(rt: &impl Print) {
    check(
        rt,
        b"T18, a broken mark",
        b"\x02\x01\x00\x00\x00\x00\x00\x00\x00\x02\x00\x00\x00\x00\x00\x00\x00\x01\x00\x01\x00\x40\x00\x00\x00\x03\x00\x00\x00\x01\x00\x01\x00\x00\x00\x00\x00\x00\x00\x02\x00\x00\x00\x00\x00\x01\x01\x00\x00\x01\x00\x00\x00\x01\x00\x01\x00\x02\x00\x00\x00\x00\x00\x00\x00\x00",
        49,
        7,
    );
    check(
        rt,
        b"T18, an operation stuck",
        b"\x03\x01\x00\x00\x00\x00\x00\x00\x00\x02\x00\x00\x00\x00\x00\x00\x00\x03\x00\x00\x00\x00\x00\x00\x00\x02\x00\x02\x00\x00\x03\x00\x00\x00\x01\x00\x01\x00\x00\x00\x00\x00\x00\x00\x00\x01\x00\x01\x00\x02\x00\x00\x00\x00\x00\x00\x00\x00\x02\x01\x01\x01\x00\x00\x00\x00\x00\x00\x00\x01\x01\x01\x00\x00\x00\x00\x00\x00\x00\x00",
        49,
        7,
    );
    check(
        rt,
        b"a lower signal by another queue",
        b"\x02\x01\x00\x00\x00\x00\x00\x00\x00\x02\x00\x00\x00\x00\x00\x00\x00\x01\x00\x00\x00\x02\x00\x00\x00\x01\x00\x02\x00\x00\x00\x00\x00\x00\x00\x00\x01\x00\x01\x00\x01\x00\x00\x00\x00\x00\x00\x00\x00",
        33,
        5,
    );
    check(
        rt,
        b"T19",
        b"\x03\x01\x00\x00\x00\x00\x00\x00\x00\x02\x00\x00\x00\x00\x00\x00\x00\x03\x00\x00\x00\x00\x00\x00\x00\x02\x00\x00\x00\x00\x03\x00\x02\x01\x00\x01\x00\x00\x00\x00\x00\x00\x00\x00\x00\x00\x01\x01\x01\x00\x00\x00\x00\x00\x00\x00\x02\x00\x01\x00\x00\x00\x00\x00\x00\x00\x01\x01\x00\x00\x00\x00\x00\x00\x00\x00\x01\x00\x01\x00\x02\x00\x00\x00\x00\x00\x00\x00\x00",
        49,
        7,
    );
}

// T3 in room of just its lengths, and in less.
fn rooms(rt: &impl Print) {
    room(rt, 48, 6);
    room(rt, 47, 7);
    room(rt, 49, 5);
    room(rt, 47, 5);
    room(rt, 0, 0);
}

// One field of T3 out of its range, or an axis repeated.
fn faults(rt: &impl Print) {
    text(rt, b"counts one over their limits\n");
    changed(rt, 0, 17);
    changed(rt, 25, 65);
    changed_pair(rt, 28, 1, 1);
    changed_pair(rt, 34, 1, 4);
    changed(rt, 37, 4);
    changed(rt, 38, 3);
    changed(rt, 48, 5);
    text(rt, b"no such owner, queue, semaphore, buffer, kind\n");
    changed(rt, 27, 3);
    changed(rt, 36, 3);
    changed(rt, 39, 2);
    changed(rt, 82, 2);
    changed_pair(rt, 93, 1, 0);
    changed_pair(rt, 93, 0, 1);
    changed(rt, 95, 2);
    text(rt, b"an axis twice\n");
    changed(rt, 9, 1);
    changed(rt, 17, 1);
    changed(rt, 17, 2);
    text(
        rt,
        b"waits for 0, one after the other; one of no semaphore; after four waits; a signal of 0\n",
    );
    changed(rt, 55, 0);
    changed(rt, 83, 0);
    changed_pair(rt, 54, 2, 0);
    changed(rt, 53, 4);
    changed(rt, 40, 0);
}

// What the reader refuses, refused by the check.
fn bad_input(rt: &impl Print) {
    text(rt, b"cut short\n");
    cuts(rt);
    text(rt, b"cut inside a field whose part would be 5, 5, 4, 16\n");
    changed_cut(rt, 9, 1, 10);
    changed_cut(rt, 17, 2, 24);
    changed_cut(rt, 93, 1, 94);
    changed_cut(rt, 55, 0, 62);
    faults(rt);
    text(rt, b"bytes after the last section\n");
    longer(rt, 1);
    longer(rt, 1048576);
}

fn main(rt: HostRuntime) {
    first_plans(&rt);
    waiting_plans(&rt);
    marked_plans(&rt);
    signals(&rt);
    handed_plans(&rt);
    which_first(&rt);
    rooms(&rt);
    bad_input(&rt);
}
