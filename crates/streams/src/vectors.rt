// Headers and records that other means have packed, by the functions that C calls. The head is what is asked, the input's length and the output's size: 0 and 1
// read a header and a record; 2 and 3 write those whose fields stand in a form, as in an edit that puts. Of each it prints a line, the answer as one number
// and thirteen fields, of a header ten and three that are 0, and behind what is written the output as it then stands.
use crate::parts;
use std::io;
use std::io::Write;

fn print_field(to: &mut impl Write, n: u32) -> io::Result<()> {
    write!(to, " {n}")
}

fn print_line(to: &mut impl Write, answer: u64, fields: [u32; 13]) -> io::Result<()> {
    write!(to, "{answer}")?;
    for field in fields {
        print_field(to, field)?;
    }
    to.write_all(b"\n")
}

// What is read or written.
#[derive(Clone, Copy)]
enum Item {
    Header,
    Record,
}

#[derive(Clone, Copy)]
enum Task {
    Read(Item),
    Write(Item),
}

impl Task {
    // By a case's first number.
    fn of(number: u32) -> Option<Task> {
        match number {
            0 => Some(Task::Read(Item::Header)),
            1 => Some(Task::Read(Item::Record)),
            2 => Some(Task::Write(Item::Header)),
            3 => Some(Task::Write(Item::Record)),
            _ => None,
        }
    }
}

fn read(to: &mut impl Write, item: Item, bytes: &[u8]) -> io::Result<()> {
    match item {
        Item::Header => {
            let mut h = [0u32; 10];
            let answer = yard::yard_read_header(bytes, &mut h);
            print_line(
                to,
                answer,
                [
                    h[0], h[1], h[2], h[3], h[4], h[5], h[6], h[7], h[8], h[9], 0, 0, 0,
                ],
            )
        }
        Item::Record => {
            let mut f = [0u32; 13];
            let answer = yard::yard_read_record(bytes, &mut f);
            print_line(to, answer, f)
        }
    }
}

fn write(to: &mut impl Write, item: Item, f: [u32; 13], out: &mut [u8]) -> io::Result<()> {
    match item {
        Item::Header => {
            let h = [f[0], f[1], f[2], f[3], f[4], f[5], f[6], f[7], f[8], f[9]];
            print_line(to, yard::yard_write_header(&h, out), f)
        }
        Item::Record => print_line(to, yard::yard_write_record(&f, out), f),
    }
}

pub fn print(
    to: &mut impl Write,
    head: &[u8; 20],
    input: &[u8],
    out: &mut [u8],
) -> io::Result<bool> {
    let Some(task) = Task::of(parts::number(head, 0)) else {
        return Ok(false);
    };
    match task {
        Task::Read(item) => read(to, item, input)?,
        Task::Write(item) => {
            if input.len() < 56 {
                return Ok(false);
            }
            write(to, item, parts::fields(input), out)?;
            to.write_all(out)?;
        }
    }
    Ok(true)
}
