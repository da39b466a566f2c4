// The reuse question on the small plans of R79 and others: what is handed back, and the lent table and list, which hold
// 7s before.
#![tactic(auto)]

ghost use Rattle.std.specs.Prelude.{◌≤◌};

use plan_format::Told;

fn text(rt: &impl Print, words: &[u8]) {
    let _ = rt.write_all(words);
}

fn line_end(rt: &impl Print) {
    text(rt, b"\n");
}

fn number(rt: &impl Print, n: u64) {
    text(rt, b" ");
    let _ = rt.print(n);
}

// A new line before every sixteenth number.
fn turn(rt: &impl Print, i: usize) {
    if i % 16 == 0 {
        text(rt, b"\n   ");
    }
}

// The first numbers of a table or a list.
fn numbers(rt: &impl Print, a: &[u32; 128], many: usize)
    requires { many ≤ 128 }
{
    let mut i = 0;
    while i < many {
        turn(rt, i);
        number(rt, u64::from(a[i]));
        i += 1;
    }
    line_end(rt);
}

fn show(rt: &impl Print, told: Told) {
    text(rt, b"  reuse");
    number(rt, u64::from(told.number));
    number(rt, told.place);
    number(rt, told.answer);
    line_end(rt);
}

// A question on a plan, by its queue and its buffer.
fn head(rt: &impl Print, name: &[u8], queue: u32, buffer: u32) {
    text(rt, name);
    text(rt, b", asked for");
    number(rt, u64::from(queue));
    number(rt, u64::from(buffer));
    line_end(rt);
}

// A question, with a table and a list of these lengths.
fn ask(
    rt: &impl Print,
    name: &[u8],
    plan: &[u8],
    queue: u32,
    buffer: u32,
    table: usize,
    list: usize,
)
    requires { (table ≤ 128) × (list ≤ 128) }
{
    head(rt, name, queue, buffer);
    let mut rows = [7u32; 128];
    let mut run = [7u32; 128];
    show(
        rt,
        ask_reuse::reuse_question(plan, queue, buffer, &mut rows[..table], &mut run[..list]),
    );
    text(rt, b"  table");
    numbers(rt, &rows, table);
    text(rt, b"  list");
    numbers(rt, &run, list);
}

// T3: the buffer's last mark is a use.
fn room(rt: &impl Print, queue: u32, buffer: u32, table: usize, list: usize)
    requires { (table ≤ 128) × (list ≤ 128) }
{
    ask(
        rt,
        b"T3",
        b"\x03\x01\x00\x00\x00\x00\x00\x00\x00\x02\x00\x00\x00\x00\x00\x00\x00\x03\x00\x00\x00\x00\x00\x00\x00\x02\x00\x01\x01\x00\x00\x10\x00\x00\x03\x00\x00\x00\x01\x00\x01\x00\x00\x00\x00\x00\x00\x00\x01\x00\x00\x00\x01\x01\x00\x01\x00\x00\x00\x00\x00\x00\x00\x01\x01\x01\x00\x00\x00\x00\x00\x00\x00\x02\x00\x00\x00\x00\x00\x01\x02\x01\x01\x01\x00\x00\x00\x00\x00\x00\x00\x00\x01\x00\x00\x00",
        queue,
        buffer,
        table,
        list,
    );
}

fn t3(rt: &impl Print, queue: u32, buffer: u32) {
    room(rt, queue, buffer, 49, 7);
}

fn t4(rt: &impl Print, queue: u32, buffer: u32) {
    ask(
        rt,
        b"T4",
        b"\x02\x01\x00\x00\x00\x00\x00\x00\x00\x02\x00\x00\x00\x00\x00\x00\x00\x02\x00\x01\x00\x00\x02\x00\x00\x01\x01\x01\x00\x00\x00\x00\x00\x00\x00\x01\x00\x01\x00\x00\x00\x00\x00\x00\x00\x00\x01\x01\x00\x01\x00\x00\x00\x00\x00\x00\x00\x01\x01\x01\x00\x00\x00\x00\x00\x00\x00\x00",
        queue,
        buffer,
        33,
        5,
    );
}

fn t5(rt: &impl Print, queue: u32, buffer: u32) {
    ask(
        rt,
        b"T5",
        b"\x01\x01\x00\x00\x00\x00\x00\x00\x00\x01\x00\x00\x00\x01\x00\x00\x01\x00\x01\x00\x00\x00\x00\x00\x00\x00\x01\x00\x01\x00\x00\x00\x00\x00\x00\x00\x00",
        queue,
        buffer,
        17,
        3,
    );
}

fn t6(rt: &impl Print, queue: u32, buffer: u32) {
    ask(
        rt,
        b"T6",
        b"\x02\x01\x00\x00\x00\x00\x00\x00\x00\x02\x00\x00\x00\x00\x00\x00\x00\x01\x00\x00\x00\x02\x00\x01\x01\x00\x01\x00\x00\x00\x00\x00\x00\x00\x00\x00\x00\x00\x01\x00\x01\x00\x00\x00\x00\x00\x00\x00\x00",
        queue,
        buffer,
        33,
        5,
    );
}

fn t7(rt: &impl Print, queue: u32, buffer: u32) {
    ask(
        rt,
        b"T7",
        b"\x02\x01\x00\x00\x00\x00\x00\x00\x00\x02\x00\x00\x00\x00\x00\x00\x00\x01\x00\x00\x00\x06\x00\x00\x00\x01\x00\x01\x00\x00\x00\x00\x00\x00\x00\x00\x00\x00\x01\x00\x02\x00\x00\x00\x00\x00\x00\x00\x00\x00\x00\x01\x00\x03\x00\x00\x00\x00\x00\x00\x00\x00\x00\x00\x01\x00\x04\x00\x00\x00\x00\x00\x00\x00\x00\x00\x00\x01\x00\x05\x00\x00\x00\x00\x00\x00\x00\x00\x01\x01\x00\x02\x00\x00\x00\x00\x00\x00\x00\x00\x00",
        queue,
        buffer,
        97,
        13,
    );
}

fn t8(rt: &impl Print, queue: u32, buffer: u32) {
    ask(
        rt,
        b"T8",
        b"\x02\x01\x00\x00\x00\x00\x00\x00\x00\x02\x00\x00\x00\x00\x00\x00\x00\x01\x00\x00\x00\x03\x00\x00\x00\x01\x00\x03\x00\x00\x00\x00\x00\x00\x00\x00\x00\x00\x01\x00\x07\x00\x00\x00\x00\x00\x00\x00\x00\x01\x01\x00\x04\x00\x00\x00\x00\x00\x00\x00\x00\x00",
        queue,
        buffer,
        49,
        7,
    );
}

fn t9(rt: &impl Print, queue: u32, buffer: u32) {
    ask(
        rt,
        b"T9",
        b"\x02\x01\x00\x00\x00\x00\x00\x00\x00\x02\x00\x00\x00\x00\x00\x00\x00\x00\x01\x00\x40\x00\x00\x00\x02\x00\x00\x00\x00\x02\x00\x00\x00\x00\x00\x01\x01\x00\x00\x01\x00\x00\x00",
        queue,
        buffer,
        33,
        5,
    );
}

fn t10(rt: &impl Print, queue: u32, buffer: u32) {
    ask(
        rt,
        b"T10",
        b"\x01\x01\x00\x00\x00\x00\x00\x00\x00\x00\x01\x00\x40\x00\x00\x00\x01\x00\x00\x00\x00\x02\x00\x00\x01\x00\x00\x00",
        queue,
        buffer,
        17,
        3,
    );
}

fn t11(rt: &impl Print, queue: u32, buffer: u32) {
    ask(
        rt,
        b"T11",
        b"\x02\x01\x00\x00\x00\x00\x00\x00\x00\x02\x00\x00\x00\x00\x00\x00\x00\x00\x01\x00\x40\x00\x00\x00\x02\x00\x00\x00\x00\x01\x00\x00\x00\x01\x00\x00\x01\x00\x00\x01",
        queue,
        buffer,
        33,
        5,
    );
}

fn t8_above(rt: &impl Print, queue: u32, buffer: u32) {
    ask(
        rt,
        b"T8, a wait for 8",
        b"\x02\x01\x00\x00\x00\x00\x00\x00\x00\x02\x00\x00\x00\x00\x00\x00\x00\x01\x00\x00\x00\x03\x00\x00\x00\x01\x00\x03\x00\x00\x00\x00\x00\x00\x00\x00\x00\x00\x01\x00\x07\x00\x00\x00\x00\x00\x00\x00\x00\x01\x01\x00\x08\x00\x00\x00\x00\x00\x00\x00\x00\x00",
        queue,
        buffer,
        49,
        7,
    );
}

// T6 with a buffer that its second operation, the first in the run, uses and frees.
fn against(rt: &impl Print, queue: u32, buffer: u32) {
    ask(
        rt,
        b"T6, freed by the first that runs",
        b"\x02\x01\x00\x00\x00\x00\x00\x00\x00\x02\x00\x00\x00\x00\x00\x00\x00\x01\x00\x01\x00\x40\x00\x00\x00\x02\x00\x01\x01\x00\x01\x00\x00\x00\x00\x00\x00\x00\x00\x00\x00\x00\x01\x00\x01\x00\x00\x00\x00\x00\x00\x00\x02\x00\x00\x00\x00\x00\x01",
        queue,
        buffer,
        33,
        5,
    );
}

// T3 without the last use: four queues, one with no operations, and a buffer with no mark.
fn seen(rt: &impl Print, queue: u32, buffer: u32) {
    ask(
        rt,
        b"T3, freed by the second",
        b"\x04\x01\x00\x00\x00\x00\x00\x00\x00\x02\x00\x00\x00\x00\x00\x00\x00\x03\x00\x00\x00\x00\x00\x00\x00\x04\x00\x00\x00\x00\x00\x00\x00\x02\x00\x01\x02\x00\x00\x10\x00\x00\x00\x00\x00\x00\x03\x00\x00\x00\x01\x00\x01\x00\x00\x00\x00\x00\x00\x00\x01\x00\x00\x00\x01\x01\x00\x01\x00\x00\x00\x00\x00\x00\x00\x01\x01\x01\x00\x00\x00\x00\x00\x00\x00\x02\x00\x00\x00\x00\x00\x01\x02\x01\x01\x01\x00\x00\x00\x00\x00\x00\x00\x00\x00",
        queue,
        buffer,
        49,
        7,
    );
}

// A buffer that is freed, and used again after that.
fn held(rt: &impl Print, queue: u32, buffer: u32) {
    ask(
        rt,
        b"two holdings",
        b"\x02\x01\x00\x00\x00\x00\x00\x00\x00\x02\x00\x00\x00\x00\x00\x00\x00\x01\x00\x01\x00\x08\x00\x00\x00\x02\x00\x00\x00\x01\x00\x01\x00\x00\x00\x00\x00\x00\x00\x02\x00\x00\x00\x00\x00\x01\x01\x01\x00\x01\x00\x00\x00\x00\x00\x00\x00\x00\x01\x00\x00\x00",
        queue,
        buffer,
        33,
        5,
    );
}

// Queue 0 sees the free by its second operation, not by its first.
fn later(rt: &impl Print, queue: u32, buffer: u32) {
    ask(
        rt,
        b"seen by the last operation only",
        b"\x02\x01\x00\x00\x00\x00\x00\x00\x00\x02\x00\x00\x00\x00\x00\x00\x00\x01\x01\x01\x00\x08\x00\x00\x00\x03\x00\x00\x00\x00\x00\x01\x00\x01\x00\x01\x00\x00\x00\x00\x00\x00\x00\x01\x00\x00\x01\x00\x01\x00\x01\x00\x00\x00\x00\x00\x00\x00\x00\x00",
        queue,
        buffer,
        49,
        7,
    );
}

// Queue 1 waits for an operation before the free, not for the free.
fn past(rt: &impl Print, queue: u32, buffer: u32) {
    ask(
        rt,
        b"freed after the signal",
        b"\x02\x01\x00\x00\x00\x00\x00\x00\x00\x02\x00\x00\x00\x00\x00\x00\x00\x01\x00\x01\x00\x08\x00\x00\x00\x03\x00\x00\x00\x01\x00\x01\x00\x00\x00\x00\x00\x00\x00\x01\x00\x00\x00\x00\x00\x00\x01\x00\x00\x01\x01\x01\x00\x01\x00\x00\x00\x00\x00\x00\x00\x00\x00",
        queue,
        buffer,
        49,
        7,
    );
}

// Marks on two buffers: one is freed, the other held.
fn another(rt: &impl Print, queue: u32, buffer: u32) {
    ask(
        rt,
        b"a use elsewhere",
        b"\x01\x01\x00\x00\x00\x00\x00\x00\x00\x00\x02\x00\x08\x00\x00\x00\x08\x00\x00\x00\x02\x00\x00\x00\x00\x02\x01\x00\x00\x00\x00\x01\x00\x00\x00\x01\x01\x00\x00",
        queue,
        buffer,
        33,
        5,
    );
}

// T1, and plans that are refused: the plan comes before the queue and the buffer.
fn bad_plans(rt: &impl Print) {
    ask(rt, b"T1", b"\x00\x00\x00\x00\x00\x00", 9, 9, 1, 1);
    ask(
        rt,
        b"T1, one byte less",
        b"\x00\x00\x00\x00\x00",
        9,
        9,
        1,
        1,
    );
    ask(
        rt,
        b"T1, one byte more",
        b"\x00\x00\x00\x00\x00\x00\x00",
        9,
        9,
        1,
        1,
    );
    ask(
        rt,
        b"seventeen queues",
        b"\x11\x00\x00\x00\x00\x00",
        9,
        9,
        1,
        1,
    );
    ask(
        rt,
        b"an owner that is no queue",
        b"\x01\x01\x00\x00\x00\x00\x00\x00\x00\x01\x01\x00\x00\x00\x00",
        9,
        9,
        1,
        1,
    );
    ask(
        rt,
        b"an axis twice",
        b"\x02\x01\x00\x00\x00\x00\x00\x00\x00\x01\x00\x00\x00\x00\x00\x00\x00\x00\x00\x00\x00\x00",
        9,
        9,
        1,
        1,
    );
    ask(
        rt,
        b"T15",
        b"\x02\x01\x00\x00\x00\x00\x00\x00\x00\x02\x00\x00\x00\x00\x00\x00\x00\x01\x00\x00\x00\x02\x00\x00\x00\x01\x00\x01\x00\x00\x00\x00\x00\x00\x00\x00\x01\x00\x01\x00\x02\x00\x00\x00\x00\x00\x00\x00\x00",
        9,
        9,
        33,
        5,
    );
    ask(
        rt,
        b"a signal of 0",
        b"\x01\x01\x00\x00\x00\x00\x00\x00\x00\x01\x00\x00\x00\x01\x00\x00\x00\x01\x00\x00\x00\x00\x00\x00\x00\x00\x00\x00",
        9,
        9,
        17,
        3,
    );
    ask(rt, b"no bytes", b"", 9, 9, 1, 1);
}

// The small plans of R79 with operations in order.
fn small_plans(rt: &impl Print) {
    t3(rt, 0, 0);
    t3(rt, 1, 0);
    t3(rt, 2, 0);
    t4(rt, 0, 0);
    t5(rt, 0, 0);
    t6(rt, 0, 0);
    t7(rt, 1, 0);
    t8(rt, 1, 0);
    t8_above(rt, 1, 0);
    t9(rt, 1, 0);
    t10(rt, 0, 0);
    t11(rt, 1, 0);
}

// Each verdict that a passed plan can get: fresh, reusable, held, not ordered.
fn verdicts(rt: &impl Print) {
    seen(rt, 0, 0);
    seen(rt, 1, 0);
    seen(rt, 2, 0);
    seen(rt, 3, 0);
    seen(rt, 0, 1);
    seen(rt, 3, 1);
    against(rt, 0, 0);
    against(rt, 1, 0);
    held(rt, 0, 0);
    held(rt, 1, 0);
    later(rt, 0, 0);
    later(rt, 1, 0);
    past(rt, 0, 0);
    past(rt, 1, 0);
    another(rt, 0, 0);
    another(rt, 0, 1);
}

// No such queue, no such buffer, neither; and a refused plan before both.
fn no_such(rt: &impl Print) {
    t3(rt, 3, 0);
    t3(rt, 4294967295, 0);
    t3(rt, 0, 1);
    t3(rt, 0, 4294967295);
    t3(rt, 3, 1);
    t3(rt, 4294967295, 4294967295);
    t4(rt, 4294967295, 4294967295);
    t9(rt, 4294967295, 4294967295);
    t8_above(rt, 4294967295, 4294967295);
}

// Exactly the room, one number short in the table, in the list and in both, and none; too little room before a queue
// that is not there.
fn rooms(rt: &impl Print) {
    room(rt, 2, 0, 48, 6);
    room(rt, 2, 0, 47, 7);
    room(rt, 2, 0, 49, 5);
    room(rt, 2, 0, 47, 5);
    room(rt, 2, 0, 0, 0);
    room(rt, 9, 9, 47, 5);
}

fn main(rt: HostRuntime) {
    small_plans(&rt);
    verdicts(&rt);
    no_such(&rt);
    bad_plans(&rt);
    rooms(&rt);
}
