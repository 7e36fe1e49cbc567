// Cases of document 01's bench, with document 02's holders, through those forms of the calls that no function for C reaches: the control
// record lent by `&mut`, the part that a peek hands back, state words packed and taken apart. What is written is held to the file `stdout`;
// an output that is full or closed changes nothing else.

#![tactic(auto)]

mod bench;
mod calls;
mod text;
mod words;

use bench::Bench;

fn main(rt: HostRuntime) {
    let b = pinned(&rt);
    refused(&rt, b);
    swept(&rt, b);
    used(&rt, b);
    shared(&rt, b);
    given_back(&rt, b);
    written(&rt, b)
}

fn pinned(rt: &impl Print) -> Bench {
    let _ = println!(rt; "C: three pages pinned");
    let mut b = Bench::set_up(rt);
    for block in 0..3 {
        b.pin(rt, 0, block);
    }
    b.print_word(rt, 0);
    b.print_counts(rt, 0);
    b
}

fn refused(rt: &impl Print, mut b: Bench) {
    let _ = println!(rt; "D: after C, a fourth");
    b.pin(rt, 0, 3);
    b.print_word(rt, 0)
}

fn swept(rt: &impl Print, mut b: Bench) {
    let _ = println!(rt; "E: after C, all unpinned");
    unpin_all(rt, &mut b);
    b.pin(rt, 0, 3);
    b.pin(rt, 0, 0);
    b.print_word(rt, 0)
}

fn unpin_all(rt: &impl Print, b: &mut Bench) {
    for buffer in 0..3 {
        b.unpin(rt, 0, buffer);
    }
}

fn used(rt: &impl Print, mut b: Bench) {
    let _ = println!(rt; "F: after C, one page pinned six times by one holder");
    for _ in 0..5 {
        b.pin(rt, 0, 2);
    }
    b.print_word(rt, 2);
    b.print_counts(rt, 2);
    b.unpin(rt, 0, 2);
    b.print_word(rt, 2);
    b.print_counts(rt, 2)
}

fn shared(rt: &impl Print, mut b: Bench) {
    let _ = println!(rt; "F: after C, that page pinned by six holders");
    for holder in 1..=5 {
        b.pin(rt, holder, 2);
    }
    b.print_word(rt, 2);
    b.print_counts(rt, 2);
    unshared(rt, b)
}

fn unshared(rt: &impl Print, mut b: Bench) {
    let _ = println!(rt; "H: each of them unpins it");
    b.unpin(rt, 0, 2);
    for holder in 0..=4 {
        b.unpin(rt, holder, 2);
    }
    b.print_word(rt, 2);
    b.unpin(rt, 5, 2);
    b.print_word(rt, 2);
    b.pin(rt, 63, 3);
    b.print_word(rt, 2);
    b.print_counts(rt, 2)
}

fn given_back(rt: &impl Print, mut b: Bench) {
    let _ = println!(rt; "after C, a second holder gives back what it has");
    b.pin(rt, 1, 1);
    b.pin(rt, 1, 1);
    b.pin(rt, 1, 2);
    b.write(rt, 1, 1, 100);
    b.write(rt, 1, 0, 100);
    b.print_word(rt, 1);
    b.print_counts(rt, 1);
    for holder in [1, 1, 64] {
        b.give_back(rt, holder);
    }
    b.print_word(rt, 1);
    b.print_counts(rt, 1);
    b.print_counts(rt, 2);
    b.unpin(rt, 1, 1);
    b.flush(rt, 1, 1);
    b.flush(rt, 0, 1);
    b.print_word(rt, 1)
}

fn written(rt: &impl Print, mut b: Bench) {
    let _ = println!(rt; "G, I: after C, writes");
    for position in [101, 100, 99] {
        b.write(rt, 0, 0, position);
    }
    b.print_word(rt, 0);
    for block in [0, 3, 4] {
        b.peek(rt, block);
    }
    logged(rt, &mut b);
    swept_dirty(rt, b)
}

fn logged(rt: &impl Print, b: &mut Bench) {
    let _ = println!(rt; "the log moved, and pages written back");
    b.move_log(rt, 99);
    b.move_log(rt, 300);
    b.write(rt, 0, 1, 250);
    b.flush(rt, 0, 1);
    b.flush(rt, 0, 3);
    b.write(rt, 0, 2, 300);
    b.checkpoint(rt);
    b.checkpoint(rt);
    b.move_log(rt, 400);
    b.print_word(rt, 0)
}

fn swept_dirty(rt: &impl Print, mut b: Bench) {
    let _ = println!(rt; "a dirty page swept");
    b.write(rt, 0, 0, 400);
    unpin_all(rt, &mut b);
    b.pin(rt, 0, 3);
    b.peek(rt, 0)
}
