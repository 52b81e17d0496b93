// What C hands over and gets back in one number: the weights of the settings, and the parts of an answer or the number of a refusal.
ghost use Rattle.std.specs.Prelude.{◌≡◌, ◌+◌, ◌*◌, ◌≤◌};
ghost use Rattle.specification.specs.Answers.{number_of, refusal_of, answer_of, drawn_of, wired_of};
ghost use Rattle.comma_text.specs.reading.Answers.{read_of};
ghost use Rattle.forward.specs.Outcome.{course_answer};
ghost use Rattle.json_sheets.specs.Calls.{written_of, taken_of};
ghost use Rattle.misqafur.specs.Packing.{settings_given, packed_answer, packed_drawn, packed_wired, packed_read};
ghost use Rattle.misqafur.specs.Packing.{packed_course, CourseFits, packed_written, packed_taken};

use comma_text::reading::Read;
use forward::running::Course;
use json_sheets::read::Archived;
use specification::answers::{Drawing, Size};
use specification::refusals::{Fault, Refusal};
use specification::settings::Settings;

// The settings as they are handed over: the weight of x_k is byte k-1 of one number, which has therefore no length that could be wrong.
pub fn settings_given(modulus: u64, variables: u64, order: u64, weights: u64) -> Settings
    ensures { result ≡ settings_given modulus variables order weights }
{
    Settings {
        modulus,
        variables,
        order,
        weights: weights.to_le_bytes(),
    }
}

pub fn pack_refusal(a: Result<(), Refusal>) -> u32
    ensures { result ≡ refusal_of a }
{
    match a {
        Ok(()) => 0,
        Err(refusal) => refusal.number() as u32,
    }
}

pub fn pack_answer(a: Result<Size, Refusal>) -> u32
    ensures { result ≡ packed_answer (answer_of a) }
{
    match a {
        Ok(size) => 256 * size.n as u32 + 65536 * size.r as u32,
        Err(refusal) => refusal.number() as u32,
    }
}

pub fn pack_drawn(a: Result<Drawing, Refusal>) -> u64
    ensures { result ≡ packed_drawn (drawn_of a) }
{
    match a {
        Ok(d) => 256 * d.n as u64 + 65536 * d.r as u64 + 4294967296 * d.cancellations as u64,
        Err(refusal) => refusal.number() as u64,
    }
}

pub fn pack_wired(a: Result<u8, Refusal>) -> u32
    ensures { result ≡ packed_wired (wired_of a) }
{
    match a {
        Ok(count) => 256 * count as u32,
        Err(refusal) => refusal.number() as u32,
    }
}

// A refusal of a text comes with its record.
fn pack_fault(fault: Fault) -> u64
    ensures { result ≡ number_of fault.refusal + 256 * fault.at }
{
    fault.refusal.number() as u64 + 256 * fault.at as u64
}

pub fn pack_read(a: Result<Read, Fault>) -> u64
    ensures { result ≡ packed_read (read_of a) }
{
    match a {
        Ok(r) => {
            256 * r.n as u64
                + 65536 * r.modulus as u64
                + 16777216 * r.variables as u64
                + 4294967296 * r.order as u64
        }
        Err(fault) => pack_fault(fault),
    }
}

pub fn pack_course(a: Result<Course, Fault>) -> u64
    requires { CourseFits (course_answer a) }
    ensures { result ≡ packed_course (course_answer a) }
{
    match a {
        Ok(c) => {
            256 * c.n as u64
                + 65536 * c.modulus as u64
                + 16777216 * c.variables as u64
                + 4294967296 * c.order as u64
                + 68719476736 * c.r as u64
                + 70368744177664 * c.step as u64
                + 36028797018963968 * c.back as u64
        }
        Err(fault) => pack_fault(fault),
    }
}

// The length of a text has 24 bits there.
pub fn pack_written(a: Result<u32, Refusal>) -> u32
    requires { (written_of a).count ≤ 16777215 }
    ensures { result ≡ packed_written (written_of a) }
{
    match a {
        Ok(count) => 256 * count,
        Err(refusal) => refusal.number() as u32,
    }
}

pub fn pack_taken(a: Result<Archived, Refusal>) -> u64
    ensures { result ≡ packed_taken (taken_of a) }
{
    match a {
        Ok(t) => {
            256 * t.n as u64
                + 65536 * t.modulus as u64
                + 16777216 * t.variables as u64
                + 4294967296 * t.order as u64
                + 68719476736 * t.r as u64
        }
        Err(refusal) => refusal.number() as u64,
    }
}
