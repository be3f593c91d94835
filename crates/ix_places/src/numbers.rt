// The numbers by which the lines of a report name replies.
ghost use Rattle.std.specs.Prelude.{◌≡◌, ◌++◌, ◌<◌, IfOk, OnOk, Some, [], filter, length, if◌then◌else◌};
ghost use Rattle.std.specs.Bool.{Decides};
ghost use Rattle.std.specs.List.{flat_map, range_with_len};
ghost use Rattle.ix_fits.specs.Journals.{conns_of, is_conn_of, is_frame_of, is_stray_of, strays_of};
ghost use Rattle.ix_fits.specs.Replies.{NameEachOnce, conn_numbers, input_numbers, numbers_of, output_number, stray_number};
ghost use Rattle.ix_places.specs.Told.{group_numbers};

use ix_base::{GroupId, NoMemory};
use ix_lines::{ConnLine, EntryLine, InputLine, OutputLine, StrayLine};
use ix_trace::Report;
use std::alloc::Global;

fn push_output(output: &OutputLine, numbers: &mut Vec<u32>) -> Result<(), NoMemory>
    ensures { OnOk result (numbers.new.items ≡ numbers.old.items ++ output_number output.now) }
{
    if let OutputLine::Reply(n) = output {
        numbers.push(*n)?;
    }
    Ok(())
}

// Adds those of an input.
#[tactic(auto, using(crate::proofs::NumberLaws::for_lines))]
fn push_input(line: &InputLine, numbers: &mut Vec<u32>) -> Result<(), NoMemory>
    ensures { OnOk result (numbers.new.items ≡ numbers.old.items ++ input_numbers line.now) }
{
    let outputs = line.outputs.as_slice();
    for output in outputs {
        push_output(output, numbers)?;
    }
    Ok(())
}

// Adds those of a connection.
#[tactic(auto, using(crate::proofs::NumberLaws::for_lines))]
fn push_conn(line: &ConnLine, numbers: &mut Vec<u32>) -> Result<(), NoMemory>
    ensures { OnOk result (numbers.new.items ≡ numbers.old.items ++ conn_numbers line.now) }
{
    let inputs = line.inputs.as_slice();
    for input in inputs {
        push_input(input, numbers)?;
    }
    Ok(())
}

// Adds that of a stray.
fn push_stray(line: &StrayLine, numbers: &mut Vec<u32>) -> Result<(), NoMemory>
    ensures { OnOk result (numbers.new.items ≡ numbers.old.items ++ stray_number line.now) }
{
    if let Some(n) = line.reply {
        numbers.push(n)?;
    }
    Ok(())
}

// Adds those of all strays.
#[tactic(auto, using(crate::proofs::NumberLaws::for_lines))]
fn push_strays(lines: &[StrayLine], numbers: &mut Vec<u32>) -> Result<(), NoMemory>
    ensures { OnOk result (numbers.new.items ≡ numbers.old.items ++ flat_map stray_number lines.now) }
{
    for line in lines {
        push_stray(line, numbers)?;
    }
    Ok(())
}

// Adds those of all connections.
#[tactic(auto, using(crate::proofs::NumberLaws::for_lines))]
fn push_conns(lines: &[ConnLine], numbers: &mut Vec<u32>) -> Result<(), NoMemory>
    ensures { OnOk result (numbers.new.items ≡ numbers.old.items ++ flat_map conn_numbers lines.now) }
{
    for line in lines {
        push_conn(line, numbers)?;
    }
    Ok(())
}

fn is_frame_of(group: GroupId, entry: &EntryLine) -> bool
    ensures { result ≡ is_frame_of group.0 (Some entry.now) }
{
    match entry {
        EntryLine::Frame { group: of, .. } => of.0 == group.0,
        _ => false,
    }
}

fn is_stray_of(group: GroupId, entries: &[EntryLine], line: &StrayLine) -> bool
    ensures { result ≡ is_stray_of group.0 entries.now line.now }
{
    match entries.get(line.w.0 as usize) {
        Some(entry) => is_frame_of(group, entry),
        None => false,
    }
}

// Adds that of a stray, where it is of a group.
fn push_stray_of(
    group: GroupId,
    entries: &[EntryLine],
    line: &StrayLine,
    numbers: &mut Vec<u32>,
) -> Result<(), NoMemory>
    ensures { OnOk result (numbers.new.items ≡ numbers.old.items ++ (if is_stray_of group.0 entries.now line.now then stray_number line.now else [])) }
{
    if !is_stray_of(group, entries, line) {
        return Ok(());
    }
    push_stray(line, numbers)
}

// Adds those of the strays of a group.
#[tactic(auto, using(crate::proofs::NumberLaws::for_groups))]
fn push_strays_of(
    group: GroupId,
    entries: &[EntryLine],
    lines: &[StrayLine],
    numbers: &mut Vec<u32>,
) -> Result<(), NoMemory>
    ensures { OnOk result (numbers.new.items ≡ numbers.old.items ++ flat_map stray_number (strays_of group.0 entries.now lines.now)) }
{
    for line in lines {
        push_stray_of(group, entries, line, numbers)?;
    }
    Ok(())
}

// Adds those of a connection, where it is of a group.
fn push_conn_of(group: GroupId, line: &ConnLine, numbers: &mut Vec<u32>) -> Result<(), NoMemory>
    ensures { OnOk result (numbers.new.items ≡ numbers.old.items ++ (if is_conn_of group.0 line.now then conn_numbers line.now else [])) }
{
    if line.group.0 != group.0 {
        return Ok(());
    }
    push_conn(line, numbers)
}

// Adds those of the connections of a group.
#[tactic(auto, using(crate::proofs::NumberLaws::for_groups))]
fn push_conns_of(group: GroupId, lines: &[ConnLine], numbers: &mut Vec<u32>) -> Result<(), NoMemory>
    ensures { OnOk result (numbers.new.items ≡ numbers.old.items ++ flat_map conn_numbers (conns_of group.0 lines.now)) }
{
    for line in lines {
        push_conn_of(group, line, numbers)?;
    }
    Ok(())
}

/// Adds those of the lines of a group: its strays, and then its connections.
#[tactic(auto, using(crate::proofs::NumberLaws::for_both))]
pub fn push_numbers(group: GroupId, report: &Report, numbers: &mut Vec<u32>) -> Result<(), NoMemory>
    ensures { OnOk result (numbers.new.items ≡ numbers.old.items ++ group_numbers report.now group.0) }
{
    let entries = report.entries.as_slice();
    push_strays_of(group, entries, report.strays.as_slice(), numbers)?;
    push_conns_of(group, report.conns.as_slice(), numbers)
}

// Those of all lines.
fn all_numbers(
    alloc: Global,
    strays: &[StrayLine],
    conns: &[ConnLine],
) -> Result<Vec<u32>, NoMemory>
    ensures { IfOk result (λ numbers. numbers.items ≡ numbers_of strays.now conns.now) }
{
    let mut numbers = Vec::new(alloc);
    push_strays(strays, &mut numbers)?;
    push_conns(conns, &mut numbers)?;
    Ok(numbers)
}

// Whether these are the numbers from 0 on, in their order.
fn is_range(numbers: &[u32], count: u32) -> bool
    ensures { Decides result (numbers.now ≡ range_with_len 0 count) }
{
    if numbers.len() != count as usize {
        return false;
    }
    for (i, number) in numbers.iter().enumerate() {
        if *number as usize != i {
            return false;
        }
    }
    true
}

/// Whether lines name each of so many replies once.
pub fn name_each_once(
    alloc: Global,
    strays: &[StrayLine],
    conns: &[ConnLine],
    count: u32,
) -> Result<bool, NoMemory>
    ensures { IfOk result (λ once. Decides once (NameEachOnce strays.now conns.now count)) }
{
    let mut numbers = all_numbers(alloc, strays, conns)?;
    numbers.sort()?;
    Ok(is_range(&numbers, count))
}
