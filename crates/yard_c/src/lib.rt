// The static library: the functions of `yard` under their names in C, each with its promise. include/praithong.h declares them.
#![tactic(auto)]

ghost use Rattle.std.specs.Prelude.{length};
ghost use Rattle.checker.specs.Entry.{entry_values, read_entry};
ghost use Rattle.sheet.specs.Header.{read_header};
ghost use Rattle.sheet.specs.Record.{read_record};
ghost use Rattle.yard.specs.Packed.{Checks, Reads, Wrote};
ghost use Rattle.yard.specs.Writing.{write_header_numbers, write_record_numbers};
ghost use Rattle.yard.specs.Fields.{numbered};
ghost use Rattle.yard.specs.Editing.{EditsPacked};
ghost use Rattle.yard.specs.Converting.{ConvertsPacked};
ghost use Rattle.edit.specs.Edit.{put_numbers_in, remove_in};
ghost use Rattle.sheet_csv.specs.Read.{sheet_from};
ghost use Rattle.sheet_csv.specs.Write.{text_from};
ghost use Rattle.numbers.specs.Fields.{header_numbers, record_numbers};

#[unsafe(no_mangle)]
pub extern "C" fn yard_check(sheet: &[u8], out: &mut [u8]) -> u64
    ensures { Checks sheet.now out.old result out.new }
{
    yard::yard_check(sheet, out)
}

#[unsafe(no_mangle)]
pub extern "C" fn yard_read_verdict(bytes: &[u8], fields: &mut [u32; 4]) -> u64
    ensures { Reads (numbered entry_values (read_entry bytes.now)) fields.old result fields.new }
{
    yard::yard_read_verdict(bytes, fields)
}

#[unsafe(no_mangle)]
pub extern "C" fn yard_read_header(bytes: &[u8], fields: &mut [u32; 10]) -> u64
    ensures { Reads (numbered header_numbers (read_header bytes.now)) fields.old result fields.new }
{
    yard::yard_read_header(bytes, fields)
}

#[unsafe(no_mangle)]
pub extern "C" fn yard_read_record(bytes: &[u8], fields: &mut [u32; 13]) -> u64
    ensures { Reads (numbered record_numbers (read_record 0 bytes.now)) fields.old result fields.new }
{
    yard::yard_read_record(bytes, fields)
}

#[unsafe(no_mangle)]
pub extern "C" fn yard_write_header(fields: &[u32; 10], out: &mut [u8]) -> u64
    ensures { Wrote (write_header_numbers fields.now out.old) result out.new }
{
    yard::yard_write_header(fields, out)
}

#[unsafe(no_mangle)]
pub extern "C" fn yard_write_record(fields: &[u32; 13], out: &mut [u8]) -> u64
    ensures { Wrote (write_record_numbers fields.now out.old) result out.new }
{
    yard::yard_write_record(fields, out)
}

#[unsafe(no_mangle)]
pub extern "C" fn yard_put(buf: &mut [u8], len: usize, fields: &[u32; 13]) -> u64
    ensures { EditsPacked (put_numbers_in buf.old len fields.now) buf.old result buf.new }
{
    yard::yard_put(buf, len, fields)
}

#[unsafe(no_mangle)]
pub extern "C" fn yard_remove(buf: &mut [u8], len: usize, id: u32) -> u64
    ensures { EditsPacked (remove_in buf.old len id) buf.old result buf.new }
{
    yard::yard_remove(buf, len, id)
}

#[unsafe(no_mangle)]
pub extern "C" fn yard_read_text(text: &[u8], out: &mut [u8]) -> u64
    ensures { ConvertsPacked (sheet_from text.now (length out.old)) out.old result out.new }
{
    yard::yard_read_text(text, out)
}

#[unsafe(no_mangle)]
pub extern "C" fn yard_write_text(sheet: &[u8], out: &mut [u8]) -> u64
    ensures { ConvertsPacked (text_from sheet.now (length out.old)) out.old result out.new }
{
    yard::yard_write_text(sheet, out)
}
