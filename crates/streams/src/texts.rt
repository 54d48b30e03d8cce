// Texts and sheets to be converted. The head is what is asked, 0 a text into a sheet, 1 a sheet into text and 2 a table that may be filled up into a sheet, the
// input's length and the output's size; of each case it prints a line, the length written or the refusal, and the output as it then stands.
ghost use Rattle.std.specs.Prelude.{◌≤◌, length};
ghost use Rattle.sheet_csv.specs.Read.{Converts};
ghost use Rattle.streams.specs.Texts.{asked, number_of, IsTask, Answers};

use crate::parts;
use sheet::Refusal;
use std::io;
use std::io::Write;

#[derive(Clone, Copy)]
enum Task {
    FromText,
    ToText,
    FromTable,
}

impl Task {
    // By a case's first number.
    fn of(number: u32) -> Option<Task>
        ensures { IsTask number result }
    {
        match number {
            0 => Some(Task::FromText),
            1 => Some(Task::ToText),
            2 => Some(Task::FromTable),
            _ => None,
        }
    }
}

fn converted(task: Task, input: &[u8], out: &mut [u8]) -> Result<usize, Refusal>
    ensures { Converts (asked (number_of task) input.now (length out.old)) out.old result out.new }
{
    match task {
        Task::FromText => sheet_csv::read_sheet(input, out),
        Task::ToText => sheet_csv::write_text(input, out),
        Task::FromTable => sheet_csv::read_table(input, out),
    }
}

// The answer to a case: its line, and the output.
fn answer(task: Task, input: &[u8], out: &mut [u8], line: &mut [u8]) -> usize
    requires { (length out.old ≤ 65536) × (22 ≤ length line.old) }
    ensures { Answers (asked (number_of task) input.now (length out.old)) out.old out.new result line.new }
{
    let answer = converted(task, input, out);
    parts::put_line(answer, line)
}

pub fn print(to: &mut impl Write, head: &[u8; 20], input: &[u8], out: &mut [u8]) -> io::Result<bool>
    requires { length out.old ≤ 65536 }
{
    let Some(task) = Task::of(parts::number(head, 0)) else {
        return Ok(false);
    };
    let mut line = [0u8; parts::LINE];
    let end = answer(task, input, out, &mut line);
    to.write_all(&line[..end])?;
    to.write_all(out)?;
    Ok(true)
}
