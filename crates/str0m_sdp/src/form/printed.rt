//! Lists, pairs and lines of values as text.
ghost use Rattle.std.specs.Fmt.{WritesOnOk};
ghost use Rattle.std.specs.List.{join_by};
ghost use Rattle.std.specs.Prelude.{◌≡◌, ◌++◌, IsTrue, List, ℕ, Some, codes, refl, decimal, flat_map, length};
ghost use Rattle.str0m_sdp.specs.Prelude.{candidate_text, fingerprint_text};
ghost use Rattle.str0m_sdp.specs.form.Printed.{are_spaced_from, attribute_line, labelled_line, printed_line_end};

use std::fmt;
use str0m_values::{Candidate, Fingerprint, Mid, Pt, Ssrc, Text};

/// What prints one text, whatever writes it: `text` says which.
pub(crate) trait Printed: fmt::Display {
    ghost text: { Self → List ℕ };

    ghost prints: { (item : Self) → Self.output item ≡ Some (text item) };
}

impl Printed for Pt {
    ghost text = { decimal };

    ghost prints = { λ _. refl };
}

impl Printed for Ssrc {
    ghost text = { decimal };

    ghost prints = { λ _. refl };
}

impl Printed for u16 {
    ghost text = { decimal };

    ghost prints = { λ _. refl };
}

impl Printed for u64 {
    ghost text = { decimal };

    ghost prints = { λ _. refl };
}

impl Printed for Text {
    ghost text = { λ text. text };

    ghost prints = { λ _. refl };
}

impl Printed for Mid {
    ghost text = { λ mid. mid };

    ghost prints = { λ _. refl };
}

impl Printed for Candidate {
    ghost text = { candidate_text };

    ghost prints = { λ _. refl };
}

impl Printed for Fingerprint {
    ghost text = { fingerprint_text };

    ghost prints = { λ _. refl };
}

/// The numbers of one byte, each with a space behind it: payload types and ids of extensions, as they stand in most lines.
const SPACED: [&str; 256] = [
    "0 ", "1 ", "2 ", "3 ", "4 ", "5 ", "6 ", "7 ", "8 ", "9 ", "10 ", "11 ", "12 ", "13 ", "14 ",
    "15 ", "16 ", "17 ", "18 ", "19 ", "20 ", "21 ", "22 ", "23 ", "24 ", "25 ", "26 ", "27 ",
    "28 ", "29 ", "30 ", "31 ", "32 ", "33 ", "34 ", "35 ", "36 ", "37 ", "38 ", "39 ", "40 ",
    "41 ", "42 ", "43 ", "44 ", "45 ", "46 ", "47 ", "48 ", "49 ", "50 ", "51 ", "52 ", "53 ",
    "54 ", "55 ", "56 ", "57 ", "58 ", "59 ", "60 ", "61 ", "62 ", "63 ", "64 ", "65 ", "66 ",
    "67 ", "68 ", "69 ", "70 ", "71 ", "72 ", "73 ", "74 ", "75 ", "76 ", "77 ", "78 ", "79 ",
    "80 ", "81 ", "82 ", "83 ", "84 ", "85 ", "86 ", "87 ", "88 ", "89 ", "90 ", "91 ", "92 ",
    "93 ", "94 ", "95 ", "96 ", "97 ", "98 ", "99 ", "100 ", "101 ", "102 ", "103 ", "104 ",
    "105 ", "106 ", "107 ", "108 ", "109 ", "110 ", "111 ", "112 ", "113 ", "114 ", "115 ", "116 ",
    "117 ", "118 ", "119 ", "120 ", "121 ", "122 ", "123 ", "124 ", "125 ", "126 ", "127 ", "128 ",
    "129 ", "130 ", "131 ", "132 ", "133 ", "134 ", "135 ", "136 ", "137 ", "138 ", "139 ", "140 ",
    "141 ", "142 ", "143 ", "144 ", "145 ", "146 ", "147 ", "148 ", "149 ", "150 ", "151 ", "152 ",
    "153 ", "154 ", "155 ", "156 ", "157 ", "158 ", "159 ", "160 ", "161 ", "162 ", "163 ", "164 ",
    "165 ", "166 ", "167 ", "168 ", "169 ", "170 ", "171 ", "172 ", "173 ", "174 ", "175 ", "176 ",
    "177 ", "178 ", "179 ", "180 ", "181 ", "182 ", "183 ", "184 ", "185 ", "186 ", "187 ", "188 ",
    "189 ", "190 ", "191 ", "192 ", "193 ", "194 ", "195 ", "196 ", "197 ", "198 ", "199 ", "200 ",
    "201 ", "202 ", "203 ", "204 ", "205 ", "206 ", "207 ", "208 ", "209 ", "210 ", "211 ", "212 ",
    "213 ", "214 ", "215 ", "216 ", "217 ", "218 ", "219 ", "220 ", "221 ", "222 ", "223 ", "224 ",
    "225 ", "226 ", "227 ", "228 ", "229 ", "230 ", "231 ", "232 ", "233 ", "234 ", "235 ", "236 ",
    "237 ", "238 ", "239 ", "240 ", "241 ", "242 ", "243 ", "244 ", "245 ", "246 ", "247 ", "248 ",
    "249 ", "250 ", "251 ", "252 ", "253 ", "254 ", "255 ",
];

/// The row of a number in such a table.
fn spaced_row(rows: &[&'static str], number: u8) -> &'static str
    requires whole { length rows.now ≡ 256 }
    requires spaced { IsTrue (are_spaced_from (λ row. row.now) 0 rows.now) }
    ensures { result.now ≡ decimal number ++ codes " " }
{
    rows[usize::from(number)]
}

/// A number with a space behind it.
pub(crate) fn spaced(number: u8) -> &'static str
    ensures { result.now ≡ decimal number ++ codes " " }
{
    spaced_row(&SPACED, number)
}

/// Items one right after the other.
#[derive(Drop)]
pub(crate) struct PrintedEach<'a, T>(pub(crate) &'a [T]);

impl<'a, T: Printed> fmt::Display for PrintedEach<'a, T> {
    ghost output = { λ each. Some (flat_map T.text each.0.now) };

    fn fmt<W: fmt::Write>(&self, f: &mut fmt::Formatter<W>) -> fmt::Result {
        for item in self.0 {
            item.fmt(f)?;
        }
        Ok(())
    }
}

/// Items, each after a lead.
#[derive(Drop)]
pub(crate) struct PrintedLed<'a, T> {
    pub(crate) items: &'a [T],
    pub(crate) lead: &'a str,
}

impl<'a, T: Printed> fmt::Display for PrintedLed<'a, T> {
    ghost output = { λ led. Some (flat_map (λ item. led.lead.now ++ T.text item) led.items.now) };

    fn fmt<W: fmt::Write>(&self, f: &mut fmt::Formatter<W>) -> fmt::Result {
        let lead = self.lead;
        for item in self.items {
            f.write_str(lead)?;
            item.fmt(f)?;
        }
        Ok(())
    }
}

/// Items with a separator between each two.
#[derive(Drop)]
pub(crate) struct PrintedJoined<'a, T> {
    pub(crate) items: &'a [T],
    pub(crate) separator: &'a str,
}

/// Items with a space between each two.
pub(crate) fn printed_spaced<T>(items: &[T]) -> PrintedJoined<T>
    ensures items { result.items.now ≡ items.now }
    ensures separator { result.separator.now ≡ codes " " }
{
    PrintedJoined {
        items,
        separator: " ",
    }
}

impl<'a, T: Printed> fmt::Display for PrintedJoined<'a, T> {
    ghost output = { λ joined. Some (join_by T.text joined.separator.now joined.items.now) };

    fn fmt<W: fmt::Write>(&self, f: &mut fmt::Formatter<W>) -> fmt::Result {
        let lead = self.separator;
        let Some((first, items)) = self.items.split_first() else {
            return Ok(());
        };
        first.fmt(f)?;
        PrintedLed { items, lead }.fmt(f)
    }
}

impl<'a, T: Printed> Printed for PrintedJoined<'a, T> {
    ghost text = { λ joined. join_by T.text joined.separator.now joined.items.now };

    ghost prints = { λ _. refl };
}

/// Two values with a space between them.
#[derive(Drop)]
pub(crate) struct PrintedPair<'a, A, B>(pub(crate) &'a A, pub(crate) &'a B);

impl<'a, A: Printed, B: Printed> fmt::Display for PrintedPair<'a, A, B> {
    ghost output = { λ pair. Some (A.text pair.0.now ++ (codes " " ++ B.text pair.1.now)) };

    fn fmt<W: fmt::Write>(&self, f: &mut fmt::Formatter<W>) -> fmt::Result {
        self.0.fmt(f)?;
        f.write_str(" ")?;
        self.1.fmt(f)
    }
}

impl<'a, A: Printed, B: Printed> Printed for PrintedPair<'a, A, B> {
    ghost text = { λ pair. A.text pair.0.now ++ (codes " " ++ B.text pair.1.now) };

    ghost prints = { λ _. refl };
}

/// Writes the end of a line. It and the next three aren't inlined: behind many `?` the compiler takes a write for a rare one, and makes
/// it a call that copies byte by byte what here is written in place.
#[inline(never)]
pub(crate) fn write_end<W: fmt::Write>(f: &mut fmt::Formatter<W>) -> fmt::Result
    ensures { WritesOnOk W.write_str_gives f.old result printed_line_end f.new }
{
    f.write_str("\r\n")
}

/// Writes the `a=` line of a text alone, with its end.
#[inline(never)]
pub(crate) fn write_alone<W: fmt::Write>(f: &mut fmt::Formatter<W>, text: &str) -> fmt::Result
    ensures { WritesOnOk W.write_str_gives f.old result (attribute_line text.now) f.new }
{
    f.write_str("a=")?;
    f.write_str(text)?;
    write_end(f)
}

/// Writes the `a=` line of a value alone, with its end.
#[inline(never)]
pub(crate) fn write_value<W: fmt::Write, T: Printed>(
    f: &mut fmt::Formatter<W>,
    content: &T,
) -> fmt::Result
    ensures { WritesOnOk W.write_str_gives f.old result (attribute_line (T.text content.now)) f.new }
{
    f.write_str("a=")?;
    content.fmt(f)?;
    write_end(f)
}

/// Writes the `a=` line of a label and a value right after it, with its end.
#[inline(never)]
pub(crate) fn write_labelled<W: fmt::Write, T: Printed>(
    f: &mut fmt::Formatter<W>,
    label: &str,
    value: &T,
) -> fmt::Result
    ensures { WritesOnOk W.write_str_gives f.old result (labelled_line label.now (T.text value.now)) f.new }
{
    f.write_str("a=")?;
    f.write_str(label)?;
    value.fmt(f)?;
    write_end(f)
}

/// Writes the `a=` line of a label, a value right after it and another after a space, with its end.
pub(crate) fn write_paired<W: fmt::Write, A: Printed, B: Printed>(
    f: &mut fmt::Formatter<W>,
    label: &str,
    first: &A,
    second: &B,
) -> fmt::Result
    ensures { WritesOnOk W.write_str_gives f.old result (labelled_line label.now (A.text first.now ++ (codes " " ++ B.text second.now))) f.new }
{
    write_labelled(f, label, &PrintedPair(first, second))
}

/// Writes how the `a=` line of a label and a number right after it begins: up to the space behind the number.
#[inline(always)]
pub(crate) fn write_numbered<W: fmt::Write>(
    f: &mut fmt::Formatter<W>,
    label: &str,
    number: u8,
) -> fmt::Result
    ensures { WritesOnOk W.write_str_gives f.old result (codes "a=" ++ (label.now ++ (decimal number ++ codes " "))) f.new }
{
    f.write_str("a=")?;
    f.write_str(label)?;
    f.write_str(spaced(number))
}
