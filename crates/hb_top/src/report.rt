ghost use Rattle.std.specs.Prelude.{◌≡◌, ◌≤◌, ◌+◌, ◌++◌, ◌∷◌, [], List, ℕ, length, take, codes};
ghost use Rattle.hb_top.specs.declared.failure.Failure.TheVariants.{Script, Image};
ghost use Rattle.hb_top.specs.Executing.{Tells, TellsFailure};
ghost use Rattle.hb_top.specs.Texts;
ghost use Rattle.hb_top.specs.Texts.{line_of, field_name, no_image_name, code_name, refusal_head, refusal_line, place_text};
ghost use Rattle.hb_top.specs.World.{printed};

use crate::failure::{Failure, NoImage};
use hb_base::{Code, Place, Refusal};
use hb_image::Field;
use hb_io::{Failed, Sink};
use hb_script::buffer::{ROOM, put, put_number, put_text};

/// The status after a put that failed.
pub const WRITE_FAULT: u8 = 5;

/// The status where there was no memory.
pub const NO_MEMORY: u8 = 12;

/// The size of a buffer for the line of a refusal: its head has at most 54 bytes, and its detail at most 200.
const REFUSAL_ROOM: usize = 256;

fn field_name(field: Field) -> &'static [u8]
    ensures name { result.now ≡ field_name field }
    ensures short { length result.now ≤ 16 }
{
    match field {
        Field::Magic => b"magic",
        Field::Version => b"version",
        Field::Ports => b"ports",
        Field::Areas => b"areas",
        Field::Stack => b"stack",
        Field::Code => b"code",
        Field::Kind => b"kind",
        Field::Width => b"width",
        Field::Length => b"length",
        Field::Address => b"address",
        Field::Name => b"name",
        Field::Words => b"words",
        Field::Tail => b"tail",
    }
}

fn no_image_name(fault: NoImage) -> &'static [u8]
    ensures name { result.now ≡ no_image_name fault }
    ensures short { length result.now ≤ 16 }
{
    match fault {
        NoImage::Short => b"short",
        NoImage::Bad(field) => field_name(field),
    }
}

fn put_line(buffer: &mut [u8; ROOM], at: usize, text: &[u8]) -> usize
    requires { at + length text.now + 1 ≤ 128 }
    ensures within { result ≤ 128 }
    ensures text { take result buffer.new ≡ take at buffer.old ++ text.now ++ 10 ∷ [] }
{
    let end = put_text(buffer, at, text);
    put(buffer, end, b'\n')
}

fn put_place(buffer: &mut [u8; REFUSAL_ROOM], at: usize, place: Place) -> usize
    requires { at ≤ 20 }
    ensures within { result ≤ at + 41 }
    ensures text { take result buffer.new ≡ take at buffer.old ++ place_text place }
{
    let end = put_number(buffer, at, u64::from(place.line));
    let end = put(buffer, end, b':');
    put_number(buffer, end, u64::from(place.col))
}

fn code_name(code: Code) -> &'static [u8]
    ensures name { result.now ≡ code_name code }
    ensures short { length result.now ≤ 3 }
{
    match code {
        Code::E01 => b"E01",
        Code::E02 => b"E02",
        Code::E03 => b"E03",
        Code::E04 => b"E04",
        Code::E05 => b"E05",
        Code::E06 => b"E06",
        Code::E07 => b"E07",
        Code::E08 => b"E08",
        Code::E09 => b"E09",
        Code::E10 => b"E10",
        Code::E11 => b"E11",
        Code::E12 => b"E12",
        Code::E13 => b"E13",
        Code::E14 => b"E14",
        Code::E15 => b"E15",
        Code::E16 => b"E16",
        Code::E17 => b"E17",
        Code::E18 => b"E18",
        Code::E19 => b"E19",
        Code::E20 => b"E20",
        Code::E21 => b"E21",
        Code::E22 => b"E22",
        Code::E23 => b"E23",
        Code::E24 => b"E24",
        Code::E25 => b"E25",
        Code::E26 => b"E26",
        Code::E27 => b"E27",
        Code::E28 => b"E28",
        Code::E29 => b"E29",
        Code::E30 => b"E30",
    }
}

/// Writes the line of a refusal up to its detail.
fn put_head(buffer: &mut [u8; REFUSAL_ROOM], refusal: &Refusal) -> usize
    ensures within { result ≤ 54 }
    ensures text { take result buffer.new ≡ refusal_head refusal.now }
{
    let end = put_text(buffer, 0, b"refused ");
    let end = put_text(buffer, end, code_name(refusal.code));
    let end = put(buffer, end, b' ');
    let end = put_place(buffer, end, refusal.place);
    put(buffer, end, b' ')
}

/// Writes the line of a refusal.
fn put_refusal(buffer: &mut [u8; REFUSAL_ROOM], refusal: &Refusal) -> usize
    ensures within { result ≤ 256 }
    ensures text { take result buffer.new ≡ refusal_line refusal.now }
{
    let end = put_head(buffer, refusal);
    let end = put_text(buffer, end, refusal.detail.as_slice());
    put(buffer, end, b'\n')
}

fn put_script(buffer: &mut [u8; ROOM], number: u32) -> usize
    ensures within { result ≤ 128 }
    ensures text { take result buffer.new ≡ line_of (Script number) }
{
    let end = put_text(buffer, 0, b"script refused ");
    let end = put_number(buffer, end, u64::from(number));
    put(buffer, end, b'\n')
}

fn put_no_image(buffer: &mut [u8; ROOM], fault: NoImage) -> usize
    ensures within { result ≤ 128 }
    ensures text { take result buffer.new ≡ line_of (Image fault) }
{
    let end = put_text(buffer, 0, b"image refused ");
    put_line(buffer, end, no_image_name(fault))
}

/// Puts a whole text: the status is `good`, or that of a put that failed.
fn tell<O: Sink>(text: &[u8], good: u8, out: &mut O) -> u8
    ensures { Tells text.now good (printed (O.taken out.old) (O.faults out.old)) (printed (O.taken out.new) (O.faults out.new)) result }
{
    match out.put(text) {
        Ok(()) => good,
        Err(Failed) => WRITE_FAULT,
    }
}

/// Puts the line of a refusal, by one call of the sink.
fn tell_refusal<O: Sink>(refusal: &Refusal, out: &mut O) -> u8
    ensures { Tells (refusal_line refusal.now) 1 (printed (O.taken out.old) (O.faults out.old)) (printed (O.taken out.new) (O.faults out.new)) result }
{
    let mut buffer = [0; REFUSAL_ROOM];
    let length = put_refusal(&mut buffer, refusal);
    tell(&buffer[..length], 1, out)
}

/// Puts the line of a refused script.
fn tell_script<O: Sink>(number: u32, out: &mut O) -> u8
    ensures { Tells (line_of (Script number)) 3 (printed (O.taken out.old) (O.faults out.old)) (printed (O.taken out.new) (O.faults out.new)) result }
{
    let mut buffer = [0; ROOM];
    let length = put_script(&mut buffer, number);
    tell(&buffer[..length], 3, out)
}

/// Puts the line of a refused image.
fn tell_no_image<O: Sink>(fault: NoImage, out: &mut O) -> u8
    ensures { Tells (line_of (Image fault)) 10 (printed (O.taken out.old) (O.faults out.old)) (printed (O.taken out.new) (O.faults out.new)) result }
{
    let mut buffer = [0; ROOM];
    let length = put_no_image(&mut buffer, fault);
    tell(&buffer[..length], 10, out)
}

/// Puts the line of a failure, and answers its status. For want of memory nothing is put.
pub fn report<O: Sink>(failure: &Failure, out: &mut O) -> u8
    ensures { TellsFailure failure.now (printed (O.taken out.old) (O.faults out.old)) (printed (O.taken out.new) (O.faults out.new)) result }
{
    match failure {
        Failure::Words => tell(b"words refused\n", 2, out),
        Failure::Refused(refusal) => tell_refusal(refusal, out),
        Failure::Script(number) => tell_script(*number, out),
        Failure::Image(fault) => tell_no_image(*fault, out),
        Failure::Read => tell(b"read fault\n", 4, out),
        Failure::Write => tell(b"write fault\n", WRITE_FAULT, out),
        Failure::Memory => NO_MEMORY,
    }
}
