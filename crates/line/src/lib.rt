// The printed line of a reading: mnemonic and operands, as the source's `format!`s would have them.
// Depends on `refusal` and `reading`, on `names` for the names, on `text` and `buffers` for writing. specs/Line.antt
// says what a line is.
#![tactic(auto)]

ghost use Rattle.std.specs.Prelude.{◌≡◌, true, ◌++◌, ◌+◌, ◌≤◌, length, IsOk};
ghost use Rattle.reading.specs.declared.Op.TheVariants.{Mem};
ghost use Rattle.buffers.specs.Bytes.{over};
ghost use Rattle.text.specs.Text.{numeral_of, decimal_of, address_of, before_zero};
ghost use Rattle.line.specs.Line as Line;
ghost use Rattle.line.specs.Line.{plain, op_text, line_of, printing_of, printed, printed_of};
ghost use Rattle.line.specs.Line.{longest_register, longest_address, longest_operand, longest};
ghost use Rattle.line.specs.Private.Steps.{Added, longest_number, separator, text_in};

use reading::{Insn, Op, kind};
use refusal::Refusal;

// Any line fits in this many bytes.
pub const LONGEST: usize = 120;

const OPERANDS: u8 = 4;

const REGISTERS: u8 = 32;

// ── what has a line ──

fn registered(o: Op) -> bool
    ensures { result ≡ Line.registered o }
{
    match o {
        Op::Reg(r) | Op::FReg(r) | Op::Mem(_, r) | Op::Cop0(r) => r < REGISTERS,
        Op::Imm(_) | Op::Addr(_) => true,
    }
}

// Over four operands, a register above 31 in one that is used, or a mnemonic without a name: no line.
fn printable(i: &Insn) -> bool
    ensures { result ≡ Line.printable i.now }
{
    if kind::MANY <= i.mnemonic || OPERANDS < i.count {
        return false;
    }
    i.ops[..i.count as usize]
        .iter()
        .all(|slot| registered(slot.op))
}

// ── a line as far as it is written ──

// The bytes up to `end` are its text. No `impl Display`: `write!` says which bytes it writes only where it answers Ok,
// and nothing in std says that it does, while `print` states the bytes of every line (`printed`).
#[derive(Drop)]
struct Draft {
    bytes: [u8; LONGEST],
    end: usize,
}

// Each of these adds a text at the end. `fill` has room for each: no draft is longer than the longest line.
// `impl Model`, as `text::Numeral` has it, would take none of the clauses away: each asks for the room of its own text,
// and `Added` would still have to say how much of it was used.
impl Draft {
    fn push_bytes(&mut self, text: &[u8])
        requires { self.old.end + length text.now ≤ longest }
        ensures { Added (length text.now) text.now self.old self.new }
    {
        buffers::put(text, &mut self.bytes, self.end);
        self.end += text.len();
    }

    // A name without the zeros after it.
    fn push_name(&mut self, name: &[u8])
        requires { self.old.end + length name.now ≤ longest }
        ensures { Added (length (before_zero name.now)) (before_zero name.now) self.old self.new }
    {
        self.end += text::name(name, &mut self.bytes, self.end);
    }

    fn push_number(&mut self, n: u8)
        requires { self.old.end + longest_number ≤ longest }
        ensures { Added longest_number (numeral_of 10 n) self.old self.new }
    {
        self.end += text::count(n as u64, &mut self.bytes, self.end);
    }

    fn push_signed(&mut self, x: i64)
        requires { self.old.end + longest_number ≤ longest }
        ensures { Added longest_number (decimal_of x) self.old self.new }
    {
        self.end += text::decimal(x, &mut self.bytes, self.end);
    }

    fn push_address(&mut self, a: u64)
        requires { self.old.end + longest_address ≤ longest }
        ensures { Added longest_address (address_of a) self.old self.new }
    {
        self.end += text::address(a, &mut self.bytes, self.end);
    }

    fn push_register(&mut self, r: u8)
        requires { self.old.end + longest_register ≤ longest }
        ensures { Added longest_register (plain.register r) self.old self.new }
    {
        self.push_name(&names::register(r));
    }

    fn push_memory(&mut self, offset: i64, base: u8)
        requires { self.old.end + longest_operand ≤ longest }
        ensures { Added longest_operand (op_text plain (Mem offset base)) self.old self.new }
    {
        self.push_signed(offset);
        self.push_bytes(b"(");
        self.push_register(base);
        self.push_bytes(b")");
    }

    // A letter or three, and a number.
    fn push_numbered(&mut self, before: &[u8], r: u8)
        requires { (length before.now ≤ 3) × (self.old.end + longest_operand ≤ longest) }
        ensures { Added longest_operand (before.now ++ numeral_of 10 r) self.old self.new }
    {
        self.push_bytes(before);
        self.push_number(r);
    }

    // A space before the first operand, a comma and a space before each other.
    fn push_separator(&mut self, is_first: bool)
        requires { self.old.end + 2 ≤ longest }
        ensures { Added (length (separator is_first)) (separator is_first) self.old self.new }
    {
        if is_first {
            self.push_bytes(b" ");
        } else {
            self.push_bytes(b", ");
        }
    }

    fn push_operand(&mut self, o: Op)
        requires { self.old.end + longest_operand ≤ longest }
        ensures { Added longest_operand (op_text plain o) self.old self.new }
    {
        match o {
            Op::Reg(r) => self.push_register(r),
            Op::FReg(r) => self.push_numbered(b"f", r),
            Op::Imm(z) => self.push_signed(z),
            Op::Mem(z, r) => self.push_memory(z, r),
            Op::Addr(a) => self.push_address(a),
            Op::Cop0(r) => self.push_numbered(b"c0r", r),
        }
    }
}

// ── the line ──

// The line of a reading, into an empty draft. The draft is filled where it stands, the reading is borrowed, and what
// stands before an operand is known where it is pushed: else each would be copied at every line (docs/BENCH.md).
fn fill(i: &Insn, line: &mut Draft)
    requires { (line.old.end ≡ 0) × (i.now.count ≤ 4) }
    ensures { (text_in line.new ≡ line_of plain i.now) ×
        ((line.new.end ≤ longest) × (length line.new.bytes ≡ longest)) }
{
    line.push_name(&names::name_of(i.mnemonic));
    let mut is_first = true;
    for slot in &i.ops[..i.count as usize] {
        line.push_separator(is_first);
        line.push_operand(slot.op);
        is_first = false;
    }
}

// The line of a reading, to the start of `out`; answers how many bytes it has. Where there is room for LONGEST bytes,
// any line fits.
pub fn print(i: Insn, out: &mut [u8]) -> Result<usize, Refusal>
    ensures value { printing_of result ≡ printed_of plain i (length out.old) }
    ensures out_after { out.new ≡ over (printed plain i (length out.old)) out.old }
    ensures fits { Line.printable i ≡ true → longest ≤ length out.old → IsOk result }
{
    if !printable(&i) {
        return Err(Refusal::NoLine);
    }
    let mut line = Draft {
        bytes: [0; LONGEST],
        end: 0,
    };
    fill(&i, &mut line);
    if out.len() < line.end {
        return Err(Refusal::NoRoom);
    }
    buffers::put(&line.bytes[..line.end], out, 0);
    Ok(line.end)
}
