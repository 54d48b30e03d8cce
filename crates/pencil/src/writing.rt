// The lines of a trail, by their numbers, one behind another.
ghost use Rattle.std.specs.Prelude.{◌*◌, length};
ghost use Rattle.wording.specs.Words.{pieces};
ghost use Rattle.wording.specs.Writes.{Writes, spot};
ghost use Rattle.pencil.specs.Templates.{text};
ghost use Rattle.pencil.specs.Trail.{longest, line_pieces, work_pieces};

use crate::{Section, Work, words};

fn put_line(t: u8, given: &[u64; 32], own: &[u64; 32], page: &mut [u8], at: usize) -> usize
    ensures { Writes (pieces given.now own.now 0 (text t)) longest (spot page.old at) (spot page.new result) }
{
    let k = t as usize;
    if words::COUNT <= k {
        return at;
    }
    let ends = words::ENDS;
    let start = ends[k];
    let end = ends[k + 1];
    let words = words::WORDS;
    wording::fill(&words[start..end], given, own, page, at)
}

fn put_lines(lines: &[u8], given: &[u64; 32], own: &[u64; 32], page: &mut [u8], at: usize) -> usize
    ensures { Writes (line_pieces given.now own.now lines.now) (longest * length lines.now) (spot page.old at) (spot page.new result) }
{
    let mut next = at;
    for &t in lines {
        next = put_line(t, given, own, page, next);
    }
    next
}

fn put_section(given: &[u64; 32], s: &Section, page: &mut [u8], at: usize) -> usize
    ensures { Writes (line_pieces given.now s.now.own s.now.lines) (longest * 9) (spot page.old at) (spot page.new result) }
{
    put_lines(&s.lines, given, &s.own, page, at)
}

// The sections one behind another.
pub fn put_work(w: Work, page: &mut [u8], at: usize) -> usize
    ensures { Writes (work_pieces w) (longest * 36) (spot page.old at) (spot page.new result) }
{
    let next = put_section(&w.given, &w.head, page, at);
    let next = put_section(&w.given, &w.one, page, next);
    let next = put_section(&w.given, &w.two, page, next);
    put_section(&w.given, &w.three, page, next)
}
