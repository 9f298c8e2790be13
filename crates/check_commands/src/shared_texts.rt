ghost use Rattle.std.specs.Prelude.{◌≡◌, ◌++◌, IfOk, OnOk, List, slice_get, string_bytes};
ghost use Rattle.std.specs.Fmt.{signed_decimal};
ghost use Rattle.script_checks.specs.Sharing.{AreAllShared, first_use_from};
ghost use Rattle.script_checks.specs.declared.descriptors.SharedDescriptor.{SharedDescriptor};
ghost use Rattle.check_commands.specs.Shares.{descriptor_text, descriptor_word, if_line, if_there};
ghost use Rattle.check_commands.specs.Shares.{if_used, json_line, more_paths, path_of};
ghost use Rattle.check_commands.specs.Shares.{paths_text, plain_line, shared_line, shared_message};
ghost use Rattle.check_commands.specs.Shares.{shared_text, shared_texts, shared_words};
ghost use Rattle.check_commands.specs.Shares.{sharing_text};

use crate::json_findings::{push_message, warning_place};
use crate::scripts::{ScriptPlace, Scripts};
use crate::warning_lines::push_warning_head;
use command_texts::push_word;
use itoa::{Buffer, Integer};
use script_checks::{ActingLine, SharedDescriptor, first_use, shared_descriptors};
use std::alloc::{AllocError, Global};
use thread_scripts::Line;

/// The warnings of the descriptors that more than one of these scripts names by their numbers.
/// Each is an object of JSON if that is asked.
pub(crate) fn shared_lines(
    alloc: Global,
    json: bool,
    scripts: &Scripts,
) -> Result<Vec<u8>, AllocError>
    ensures { IfOk result (λ text.
        (shared : List SharedDescriptor) × AreAllShared scripts.now.scripts.items shared
        × (text.items ≡ shared_texts json scripts.now shared)) }
{
    let all = shared_descriptors(alloc, &scripts.scripts)?;
    shared_lines_of(alloc, json, scripts, &all)
}

fn shared_lines_of(
    alloc: Global,
    json: bool,
    scripts: &Scripts,
    all: &[SharedDescriptor],
) -> Result<Vec<u8>, AllocError>
    ensures { IfOk result (λ text. text.items ≡ shared_texts json scripts.now all.now) }
{
    let mut text = Vec::new(alloc);
    for i in 0..all.len() {
        push_shared(&mut text, json, scripts, &all[i])?;
    }
    Ok(text)
}

// Adds the line of one, where the first script that names it does so first.
fn push_shared(
    text: &mut Vec<u8>,
    json: bool,
    scripts: &Scripts,
    shared: &SharedDescriptor,
) -> Result<(), AllocError>
    ensures { OnOk result (
        text.new.items ≡ text.old.items ++ shared_text json scripts.now shared.now) }
{
    match shared.scripts.first() {
        Some(first) => push_named(text, json, scripts, shared, *first),
        None => Ok(()),
    }
}

fn push_named(
    text: &mut Vec<u8>,
    json: bool,
    scripts: &Scripts,
    shared: &SharedDescriptor,
    first: usize,
) -> Result<(), AllocError>
    ensures { OnOk result (
        text.new.items
        ≡ text.old.items
        ++ if_there json scripts.now.places.items shared.now
        (slice_get scripts.now.scripts.items first) (slice_get scripts.now.places.items first)) }
{
    let Some(script) = scripts.scripts.get(first) else {
        return Ok(());
    };
    match scripts.places.get(first) {
        Some(at) => push_used(text, json, &scripts.places, shared, at, script.lines()),
        None => Ok(()),
    }
}

fn push_used(
    text: &mut Vec<u8>,
    json: bool,
    places: &[ScriptPlace],
    shared: &SharedDescriptor,
    at: &ScriptPlace,
    script: &[Line],
) -> Result<(), AllocError>
    ensures { OnOk result (
        text.new.items
        ≡ text.old.items
        ++ if_used json places.now shared.now at.now
        (first_use_from 0 shared.now.number script.now)) }
{
    match first_use(script, shared.number) {
        Some((place, word)) => push_at_place(text, json, places, shared, at, place, word),
        None => Ok(()),
    }
}

fn push_at_place(
    text: &mut Vec<u8>,
    json: bool,
    places: &[ScriptPlace],
    shared: &SharedDescriptor,
    at: &ScriptPlace,
    place: usize,
    word: usize,
) -> Result<(), AllocError>
    ensures { OnOk result (
        text.new.items
        ≡ text.old.items
        ++ if_line json places.now shared.now at.now word (slice_get at.now.lines.items place)) }
{
    match at.lines.get(place) {
        Some(line) => push_line(text, json, places, shared, at, line, word),
        None => Ok(()),
    }
}

fn push_line(
    text: &mut Vec<u8>,
    json: bool,
    places: &[ScriptPlace],
    shared: &SharedDescriptor,
    at: &ScriptPlace,
    line: &ActingLine,
    word: usize,
) -> Result<(), AllocError>
    ensures { OnOk result (
        text.new.items
        ≡ text.old.items ++ shared_line json places.now shared.now at.now line.now word) }
{
    if json {
        push_json_line(text, places, shared, at, line, word)
    } else {
        push_plain_line(text, places, shared, at, line, word)
    }
}

fn push_json_line(
    text: &mut Vec<u8>,
    places: &[ScriptPlace],
    shared: &SharedDescriptor,
    at: &ScriptPlace,
    line: &ActingLine,
    word: usize,
) -> Result<(), AllocError>
    ensures { OnOk result (
        text.new.items
        ≡ text.old.items ++ json_line places.now shared.now at.now line.now word) }
{
    let message = shared_message(*text.allocator(), places, shared)?;
    push_message(text, warning_place(at.path, line, word), message.as_str())
}

// That these scripts name it, in words.
fn shared_message(
    alloc: Global,
    places: &[ScriptPlace],
    shared: &SharedDescriptor,
) -> Result<String, AllocError>
    ensures { IfOk result (λ message.
        string_bytes message ≡ shared_message places.now shared.now) }
{
    let mut message = descriptor_shared(alloc, shared.number)?;
    add_paths(&mut message, places, &shared.scripts)?;
    Ok(message)
}

#[tactic(auto, unfolding(crate::specs::Shares::descriptor_word, crate::specs::Shares::shared_words))]
fn descriptor_shared(alloc: Global, number: i64) -> Result<String, AllocError>
    ensures { IfOk result (λ words.
        string_bytes words ≡ descriptor_text number ++ shared_words) }
{
    format!(in alloc; "descriptor {number} is named by more than one script: ")
}

// Adds the paths of these scripts to a message.
fn add_paths(
    message: &mut String,
    places: &[ScriptPlace],
    scripts: &[usize],
) -> Result<(), AllocError>
    ensures { OnOk result (
        string_bytes message.new
        ≡ string_bytes message.old ++ paths_text places.now scripts.now) }
{
    let [first, others @ ..] = scripts else {
        return Ok(());
    };
    message.push_str(path_of(places, *first))?;
    add_more_paths(message, places, others)
}

fn add_more_paths(
    message: &mut String,
    places: &[ScriptPlace],
    scripts: &[usize],
) -> Result<(), AllocError>
    ensures { OnOk result (
        string_bytes message.new
        ≡ string_bytes message.old ++ more_paths places.now scripts.now) }
{
    for i in 0..scripts.len() {
        message.push_str(", ")?;
        message.push_str(path_of(places, scripts[i]))?;
    }
    Ok(())
}

fn push_plain_line(
    text: &mut Vec<u8>,
    places: &[ScriptPlace],
    shared: &SharedDescriptor,
    at: &ScriptPlace,
    line: &ActingLine,
    word: usize,
) -> Result<(), AllocError>
    ensures { OnOk result (
        text.new.items
        ≡ text.old.items ++ plain_line places.now shared.now at.now line.now word) }
{
    push_warning_head(text, at.path, line, word)?;
    let number = shared.number;
    push_descriptor(text, number)?;
    push_sharing(text, places, &shared.scripts)
}

fn push_sharing(
    text: &mut Vec<u8>,
    places: &[ScriptPlace],
    scripts: &[usize],
) -> Result<(), AllocError>
    ensures { OnOk result (
        text.new.items ≡ text.old.items ++ sharing_text places.now scripts.now) }
{
    push_word(text, shared_words())?;
    push_paths(text, places, scripts)?;
    push_word(text, "\n")
}

fn push_descriptor(text: &mut Vec<u8>, number: i64) -> Result<(), AllocError>
    ensures { OnOk result (text.new.items ≡ text.old.items ++ descriptor_text number) }
{
    push_word(text, descriptor_word())?;
    push_signed(text, number)
}

#[tactic(auto, unfolding(crate::specs::Shares::descriptor_word))]
fn descriptor_word() -> &'static str
    ensures { result.now ≡ descriptor_word }
{
    "descriptor "
}

fn push_signed(text: &mut Vec<u8>, number: i64) -> Result<(), AllocError>
    ensures { OnOk result (text.new.items ≡ text.old.items ++ signed_decimal number) }
{
    push_digits(text, number)
}

// Adds the text of a number.
fn push_digits<I: Integer>(text: &mut Vec<u8>, number: I) -> Result<(), AllocError>
    ensures { OnOk result (text.new.items ≡ text.old.items ++ I.text number) }
{
    let mut digits = Buffer::new();
    push_word(text, digits.format(number))
}

#[tactic(auto, unfolding(crate::specs::Shares::shared_words))]
fn shared_words() -> &'static str
    ensures { result.now ≡ shared_words }
{
    " is named by more than one script: "
}

// Adds the paths of these scripts.
fn push_paths(
    text: &mut Vec<u8>,
    places: &[ScriptPlace],
    scripts: &[usize],
) -> Result<(), AllocError>
    ensures { OnOk result (
        text.new.items ≡ text.old.items ++ paths_text places.now scripts.now) }
{
    let [first, others @ ..] = scripts else {
        return Ok(());
    };
    push_word(text, path_of(places, *first))?;
    push_more_paths(text, places, others)
}

fn push_more_paths(
    text: &mut Vec<u8>,
    places: &[ScriptPlace],
    scripts: &[usize],
) -> Result<(), AllocError>
    ensures { OnOk result (
        text.new.items ≡ text.old.items ++ more_paths places.now scripts.now) }
{
    for i in 0..scripts.len() {
        push_word(text, ", ")?;
        push_word(text, path_of(places, scripts[i]))?;
    }
    Ok(())
}

fn path_of<'a>(places: &[ScriptPlace<'a>], script: usize) -> &'a str
    ensures { result.now ≡ path_of (slice_get places.now script) }
{
    match places.get(script) {
        Some(place) => place.path,
        None => "",
    }
}
