//! Numbers by label, before and after one is lowered.
use address::{Address, Origin};
use std::alloc::Global;
use std::process::Abort;
use work_queues::{Agenda, Task};

// What is added: each line is its origin's address and its label. Then number 6 is lowered to 3.
const ADDED: &str = "http://h/ 9
http://h/ 1
http://k/ 7
http://h/ 6
http://h/ 4
http://h/ 11
http://h/ 8
http://k/ 2
http://k/ 10
http://h/ 11";

// The numbers by their labels from then on, equal labels by number.
const ORDER: &str = "1 7 6 4 3 2 0 8 5 9";

// A number of which this is left to do: that of the least label.
fn first(agenda: &Agenda, task: Task) -> Option<usize> {
    match task {
        Task::Waiting if agenda.waiting_len() > 0 => Some(agenda.waiting_at(0)),
        Task::Parked if agenda.parked_len() > 0 => Some(agenda.parked_at(0)),
        Task::Due => agenda.first_due(),
        _ => None,
    }
}

// The origin of an address.
fn origin(rt: &impl Abort, alloc: Global, text: &str) -> Origin {
    let home = Address::read(alloc, text).expect(rt, "an address");
    Origin::of(&home).expect(rt, "memory")
}

// One number more, of the origin of this address.
fn add(rt: &impl Abort, alloc: Global, agenda: &mut Agenda, text: &str, task: Task, label: u32) {
    let origin = origin(rt, alloc, text);
    agenda.add(alloc, origin, task, label).expect(rt, "memory");
}

// All lines are added.
fn fill(rt: &impl Abort, alloc: Global, agenda: &mut Agenda, task: Task) {
    for line in ADDED.lines() {
        let (text, label) = line.split_once(' ').unwrap_or((line, ""));
        let Ok(label) = label.parse::<u32>() else {
            panic!(rt; "no label");
        };
        add(rt, alloc, agenda, text, task, label);
    }
}

// From now on this is left to do for the number.
fn set(rt: &impl Abort, agenda: &mut Agenda, number: usize, task: Task, label: u32) {
    assert!(rt; number < agenda.len());
    agenda.set(number, task, label);
}

// The numbers come in their order, for one thing that is left to do.
fn come_in_order(rt: &impl Abort, agenda: &mut Agenda, task: Task) {
    assert!(rt; agenda.len() == 10);
    set(rt, agenda, 6, task, 3);
    for word in ORDER.split(' ') {
        let Ok(expected) = word.parse::<usize>() else {
            panic!(rt; "no number");
        };
        assert!(rt;
            first(agenda, task) == Some(expected),
            "{task:?} {expected}"
        );
        set(rt, agenda, expected, Task::Done, 0);
    }
    assert!(rt; first(agenda, task).is_none());
}

#[test]
fn the_least_label_is_first_also_after_one_was_lowered(rt: HostRuntime) {
    for task in [Task::Parked, Task::Waiting, Task::Due] {
        let mut agenda = Agenda::new(rt.alloc()).expect(&rt, "memory");
        fill(&rt, rt.alloc(), &mut agenda, task);
        come_in_order(&rt, &mut agenda, task);
        drop(agenda);
    }
}
