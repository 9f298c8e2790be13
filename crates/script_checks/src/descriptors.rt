ghost use Rattle.std.specs.Prelude.{◌≡◌, ◌∷◌, [], IfOk, OnOk, Some};
ghost use Rattle.std.specs.List.{list_any};
ghost use Rattle.script_checks.specs.Sharing.{Adds, AddsOf, AreAllShared, AreSharedOnce};
ghost use Rattle.script_checks.specs.Sharing.{first_use_from, fixed_descriptors, fixed_seen};
ghost use Rattle.script_checks.specs.Sharing.{has_number, is_number, names, naming_from};
ghost use Rattle.script_checks.specs.Sharing.{operand_naming};

use answered_calls::{Operand, OperandValue, operands};
use std::alloc::{AllocError, Global};
use thread_scripts::{Data, Line, Number, Script};

/// A descriptor that more than one script names by its number.
#[derive(Debug, Drop)]
pub struct SharedDescriptor {
    pub number: i64,
    /// The numbers of the scripts, from 0.
    pub scripts: Vec<usize>,
}

// An operand of a line, whose numbers and bytes may be registers.
type LineOperand<'a> = Operand<'a, Number, &'a Data>;

// The number by which an operand names a descriptor, if it does.
fn fixed_operand(operand: &Option<LineOperand<'_>>) -> Option<i64>
    ensures { result ≡ fixed_seen operand.now }
{
    let Some(Operand { value, .. }) = operand else {
        return None;
    };
    match value {
        OperandValue::Descriptor(Number::Value(number)) => Some(*number),
        _ => None,
    }
}

fn is_number(number: i64, operand: Option<i64>) -> bool
    ensures { result ≡ is_number number operand }
{
    match operand {
        Some(it) => number == it,
        None => false,
    }
}

// The number of the word in a line, from 0, that names this descriptor first by its number.
#[tactic(auto, using(crate::proofs::Naming::by_place))]
fn word_naming(line: &Line, number: i64) -> Option<usize>
    ensures { result ≡ operand_naming 1 number (fixed_descriptors line.now) }
{
    let Line::Call(call) = line else {
        return None;
    };
    let operands = operands(call);
    if is_number(number, fixed_operand(&operands.first)) {
        Some(1)
    } else if is_number(number, fixed_operand(&operands.second)) {
        Some(2)
    } else if is_number(number, fixed_operand(&operands.third)) {
        Some(3)
    } else {
        None
    }
}

// Whether a line names this descriptor by its number.
#[tactic(auto, using(crate::proofs::Naming::named))]
fn names(line: &Line, number: i64) -> bool
    ensures { result ≡ names number line.now }
{
    word_naming(line, number).is_some()
}

// Whether one of these lines does.
fn any_names(lines: &[Line], number: i64) -> bool
    ensures { result ≡ list_any (names number) lines.now }
{
    lines.iter().any(|line| names(line, number))
}

// The numbers of the scripts that name this descriptor by its number, in order.
fn scripts_naming(alloc: Global, scripts: &[Script], number: i64) -> Result<Vec<usize>, AllocError>
    ensures { IfOk result (λ naming. naming.items ≡ naming_from 0 number scripts.now) }
{
    let mut naming = Vec::new(alloc);
    for i in 0..scripts.len() {
        if any_names(scripts[i].lines(), number) {
            naming.push(i)?;
        }
    }
    Ok(naming)
}

fn has_number(shared: &[SharedDescriptor], number: i64) -> bool
    ensures { result ≡ has_number number shared.now }
{
    shared.iter().any(|it| number == it.number)
}

// Adds a descriptor, if more than one script names it by its number and it is not there already.
fn add_if_shared(
    alloc: Global,
    scripts: &[Script],
    number: i64,
    shared: &mut Vec<SharedDescriptor>,
) -> Result<(), AllocError>
    requires { AreSharedOnce scripts.now shared.old.items }
    ensures { OnOk result (
        Adds scripts.now (Some number) shared.old.items shared.new.items) }
{
    if has_number(shared, number) {
        return Ok(());
    }
    let naming = scripts_naming(alloc, scripts, number)?;
    if naming.len() >= 2 {
        shared.push(SharedDescriptor {
            number,
            scripts: naming,
        })?;
    }
    Ok(())
}

// The same for an operand, if it names a descriptor by its number.
fn add_operand(
    alloc: Global,
    scripts: &[Script],
    operand: &Option<LineOperand<'_>>,
    shared: &mut Vec<SharedDescriptor>,
) -> Result<(), AllocError>
    requires { AreSharedOnce scripts.now shared.old.items }
    ensures { OnOk result (
        Adds scripts.now (fixed_seen operand.now) shared.old.items shared.new.items) }
{
    match fixed_operand(operand) {
        Some(number) => add_if_shared(alloc, scripts, number, shared),
        None => Ok(()),
    }
}

// Adds those that a line names.
fn add_line(
    alloc: Global,
    scripts: &[Script],
    line: &Line,
    shared: &mut Vec<SharedDescriptor>,
) -> Result<(), AllocError>
    requires { AreSharedOnce scripts.now shared.old.items }
    ensures { OnOk result (AddsOf scripts.now (line.now ∷ []) shared.old.items shared.new.items) }
{
    let Line::Call(call) = line else {
        return Ok(());
    };
    let operands = operands(call);
    add_operand(alloc, scripts, &operands.first, shared)?;
    add_operand(alloc, scripts, &operands.second, shared)?;
    add_operand(alloc, scripts, &operands.third, shared)
}

// Adds those that these lines name.
fn add_lines(
    alloc: Global,
    scripts: &[Script],
    lines: &[Line],
    shared: &mut Vec<SharedDescriptor>,
) -> Result<(), AllocError>
    requires { AreSharedOnce scripts.now shared.old.items }
    ensures { OnOk result (AddsOf scripts.now lines.now shared.old.items shared.new.items) }
{
    for i in 0..lines.len() {
        add_line(alloc, scripts, &lines[i], shared)?;
    }
    Ok(())
}

/// The descriptors that more than one of these scripts names by their numbers, each once, in the
/// order in which they are named first.
pub fn shared_descriptors(
    alloc: Global,
    scripts: &[Script],
) -> Result<Vec<SharedDescriptor>, AllocError>
    ensures { IfOk result (λ shared. AreAllShared scripts.now shared.items) }
{
    let mut shared = Vec::new(alloc);
    for i in 0..scripts.len() {
        add_lines(alloc, scripts, scripts[i].lines(), &mut shared)?;
    }
    Ok(shared)
}

/// Where a script names this descriptor first by its number: the place of the line, and the number
/// of the word in it, from 0.
pub fn first_use(lines: &[Line], number: i64) -> Option<(usize, usize)>
    ensures { result ≡ first_use_from 0 number lines.now }
{
    for place in 0..lines.len() {
        if let Some(word) = word_naming(&lines[place], number) {
            return Some((place, word));
        }
    }
    None
}
