// Changes of the policy and the state between calls, for states that no calls lead to.
//
// A change is a line `!` and bytes in digits: the field; its index, which is a CPU, partition, group, subject or IRQ line, or 00
// where there is one only; its value in two bytes. Field 00 is a row of the policy: its place in two bytes, the row in eight.
use crate::bench::Bench;
use cases::row_of;
use clock::CpuClock;
use hexline::{byte_at, number_at};
use meaning::SubjectVector;
use rows::store;
use scheduler::State;

// What the value of a field makes of the state: 01 to 06 are of the clock, 07 to 0D of the programs; 0E is the subject entered
// on a CPU, and 0F whether calls are answered no more.
fn change_state(state: &mut State, field: u8, index: u8, value: u16) {
    // The value of a field that is one byte, and of one that is no number: 1 for yes.
    let [_, byte] = value.to_be_bytes();
    let yes = value == 1;
    let at = index as usize;
    let cpu = state.clock.cpu_at(index);
    let programs = state.programs;
    let group = programs.group_at(index);
    let subject = programs.subject_at(index);
    match field {
        0x01 => state.clock.major = byte,
        0x02 => state.clock.next = byte,
        0x03 => store(&mut state.clock.cpus, at, CpuClock { minor: byte, ..cpu }),
        0x04 => store(&mut state.clock.cpus, at, CpuClock { left: value, ..cpu }),
        0x05 => store(&mut state.clock.now, at, value),
        0x06 => store(&mut state.clock.last, at, value),
        0x07 => state.programs = programs.with_active(index, byte),
        0x08 => state.programs = programs.with_group(index, group.hand_over(byte)),
        0x09 if yes => state.programs = programs.with_group(index, group.wake()),
        0x09 => state.programs = programs.with_group(index, group.sleep()),
        0x0A => state.programs = programs.with_subject(index, subject.set_open(yes)),
        0x0B => state.programs = programs.with_subject(index, subject.mark_event(byte)),
        0x0C => {
            let marked = subject.mark_vector(SubjectVector(byte));
            state.programs = programs.with_subject(index, marked);
        }
        0x0D if yes => state.programs = programs.with_masks(programs.masks.mark(index)),
        0x0D => state.programs = programs.with_masks(programs.masks.clear(index)),
        0x0E => store(&mut state.entered, at, byte),
        _ => state.stopped = yes,
    }
}

// What the bytes of a change make of the policy and the state.
pub(crate) fn change_bench(bench: &mut Bench, bytes: &[u8]) {
    match byte_at(bytes, 0) {
        0x00 => {
            let row = row_of(bytes.get(6..).unwrap_or(&[]));
            store(&mut bench.policy.rows, number_at(bytes, 1) as usize, row);
        }
        field => {
            let (index, value) = (byte_at(bytes, 1), number_at(bytes, 2));
            change_state(&mut bench.state, field, index, value);
        }
    }
}
