// The text of a picture, which is an SVG document.
ghost use Rattle.std.specs.Prelude.{◌≡◌, ◌≤◌, ◌<◌, ◌*◌, ◌^◌, ◌++◌, ℕ, All, IfOk, List, OnOk, map, string_bytes, length};
ghost use Rattle.std.specs.Fmt.{decimal};
ghost use Rattle.wfe_draw_lives.specs.declared.bar.Bar.{Bar as AnyBar};
ghost use Rattle.wfe_draw_page.specs.Markup.{plain_of};
ghost use Rattle.wfe_draw_page.specs.Pages.{Begun, IsPage, PutsMark, bar_text, base_text, class_name, head_text, size_text};
ghost use Rattle.wfe_draw_page.specs.Within.{Fits, IsGrid, width_of};

use crate::grid::{Frame, Grid};
use crate::label::{label, title};
use crate::mark::{Mark, marks_of, push_frame};
use crate::undrawn::Undrawn;
use std::alloc::{AllocError, Global};
use wfe_draw_lives::{Bar, Picture, Shade};

// The colours can be told apart by who does not see all of them (Okabe and Ito 2008).
const STYLE: &str = "
text{font:10px monospace;fill:#111}
rect{stroke:#fff;rx:2px}
.ground rect{fill:#fff;stroke:none}
.name rect,.era rect{fill:none;stroke:none}
.move rect{fill:#888;stroke:none}
.call rect{fill:#c5d0e0}
.publishes rect{fill:#cc79a7}
.reads rect{fill:#555;stroke:none}
.reads text{fill:#fff}
.stands rect{fill:#56b4e9}
.hand rect{fill:#a6adb8}
.linked rect{fill:#009e73}
.cut rect{fill:#e69f00}
.waits rect{fill:#d55e00}
.keeps rect{fill:#d55e00;stroke:none}
@media (prefers-color-scheme:dark){
rect{stroke:#0d1117}
.ground rect{fill:#0d1117}
.name text,.era text{fill:#e6edf3}
.move rect{fill:#777}
.reads rect{fill:#aaa}
.reads text{fill:#111}
}
";

// The classes of colours, in their order.
const CLASSES: [&str; 13] = [
    "ground",
    "name",
    "era",
    "move",
    "call",
    "publishes",
    "reads",
    "stands",
    "hand",
    "linked",
    "cut",
    "waits",
    "keeps",
];

// The class of a colour.
fn class_of(shade: Shade) -> &'static str
    ensures { result.now ≡ class_name shade }
{
    CLASSES[shade as usize]
}

// The byte, where it stands for itself in the text of a document, and a question mark for any other.
fn plain(byte: u8) -> u8
    ensures { result ≡ plain_of byte }
{
    let is_plain = byte == b'\n'
        || (byte >= b' '
            && byte <= b'~'
            && byte != b'<'
            && byte != b'>'
            && byte != b'&'
            && byte != b'"');
    if is_plain { byte } else { b'?' }
}

// Appends text as it is.
fn put(page: &mut Vec<u8>, text: &str) -> Result<(), AllocError>
    ensures { OnOk result (page.new.items ≡ page.old.items ++ text.now) }
{
    page.extend_from_slice(text.as_bytes())
}

// Appends words.
fn put_words(page: &mut Vec<u8>, words: &str) -> Result<(), AllocError>
    ensures { OnOk result (page.new.items ≡ page.old.items ++ map plain_of words.now) }
{
    for byte in words.as_bytes() {
        page.push(plain(*byte))?;
    }
    Ok(())
}

// The label of a bar, if it fits: each of its letters is 6 pixels wide.
fn fitting(alloc: Global, bar: &Bar, width: u32) -> Result<String, AllocError>
    ensures { IfOk result (λ text. 6 * length (string_bytes text) ≤ width) }
{
    let most = (width.saturating_sub(6) / 6) as usize;
    let whole = label(alloc, bar, true)?;
    if whole.len() <= most {
        return Ok(whole);
    }
    let short = label(alloc, bar, false)?;
    if short.len() <= most {
        return Ok(short);
    }
    Ok(String::new(alloc))
}

// Appends text and then a number.
fn put_number(
    alloc: Global,
    page: &mut Vec<u8>,
    before: &str,
    number: u64,
) -> Result<(), AllocError>
    ensures { OnOk result (page.new.items ≡ page.old.items ++ (before.now ++ decimal number)) }
{
    let text = format!(in alloc; "{before}{number}")?;
    put(page, &text)
}

// Appends what a mark has before its title.
fn put_head(page: &mut Vec<u8>, shade: Shade) -> Result<(), AllocError>
    ensures { OnOk result (page.new.items ≡ page.old.items ++ head_text shade) }
{
    put(page, "<g class=\"")?;
    put(page, class_of(shade))?;
    put(page, "\"><title>")
}

// Appends what a mark has after its title: the bar.
fn put_bar(alloc: Global, page: &mut Vec<u8>, frame: Frame) -> Result<(), AllocError>
    ensures { OnOk result (page.new.items ≡ page.old.items ++ bar_text frame) }
{
    put_number(alloc, page, "</title><rect x=\"", frame.x as u64)?;
    put_number(alloc, page, "\" y=\"", frame.y as u64)?;
    put_number(alloc, page, "\" width=\"", frame.width as u64)?;
    put_number(alloc, page, "\" height=\"", frame.height as u64)
}

// Appends what a mark has before its label, which is so many pixels wide.
fn put_base(alloc: Global, page: &mut Vec<u8>, frame: Frame, wide: u64) -> Result<(), AllocError>
    ensures { OnOk result (page.new.items ≡ page.old.items ++ base_text frame wide) }
{
    put_number(alloc, page, "\"></rect><text x=\"", frame.x as u64 + 3)?;
    put_number(alloc, page, "\" y=\"", frame.y as u64 + 13)?;
    put_number(alloc, page, "\" textLength=\"", wide)?;
    put(page, "\">")
}

// Appends a mark with these words.
fn put_shown(
    alloc: Global,
    page: &mut Vec<u8>,
    mark: &Mark,
    title: &str,
    label: &str,
) -> Result<(), AllocError>
    requires fits { 6 * length label.now ≤ mark.now.frame.width }
    requires short { length label.now < 2 ^ 32 }
    ensures { OnOk result (PutsMark page.old.items page.new.items mark.now) }
{
    put_head(page, mark.bar.shade)?;
    put_words(page, title)?;
    put_bar(alloc, page, mark.frame)?;
    put_base(alloc, page, mark.frame, 6 * (label.len() as u64))?;
    put_words(page, label)?;
    put(page, "</text>\n</g>")
}

// Appends a mark.
fn put_mark(alloc: Global, page: &mut Vec<u8>, mark: &Mark) -> Result<(), AllocError>
    ensures { OnOk result (PutsMark page.old.items page.new.items mark.now) }
{
    let title = title(alloc, &mark.bar)?;
    let label = fitting(alloc, &mark.bar, mark.frame.width)?;
    put_shown(alloc, page, mark, &title, &label)
}

// Appends what a picture has before its style.
fn put_size(alloc: Global, page: &mut Vec<u8>, width: u64, height: u64) -> Result<(), AllocError>
    ensures { OnOk result (page.new.items ≡ page.old.items ++ size_text width height) }
{
    put_number(
        alloc,
        page,
        "<svg xmlns=\"http://www.w3.org/2000/svg\" width=\"",
        width,
    )?;
    put_number(alloc, page, "\" height=\"", height)?;
    put_number(alloc, page, "\" viewBox=\"0 0 ", width)?;
    put_number(alloc, page, " ", height)?;
    put(page, "\"><style>")
}

// The text before the marks.
fn begun(alloc: Global, grid: &Grid) -> Result<Vec<u8>, AllocError>
    requires { IsGrid grid.now }
    ensures { IfOk result (λ page. Begun (width_of grid.now) grid.now.height page.items) }
{
    let mut page = Vec::new(alloc);
    put_size(alloc, &mut page, grid.width() as u64, grid.height as u64)?;
    put_words(&mut page, STYLE)?;
    put(&mut page, "</style>")?;
    Ok(page)
}

// The text of the marks.
fn page_of(alloc: Global, grid: &Grid, marks: &[Mark]) -> Result<Vec<u8>, AllocError>
    requires { IsGrid grid.now }
    ensures { (bars : List AnyBar) → All (Fits grid.now bars) marks.now → IfOk result (λ page. IsPage bars grid.now.before grid.now.columns page.items) }
{
    let mut page = begun(alloc, grid)?;
    for mark in marks {
        put_mark(alloc, &mut page, mark)?;
    }
    put(&mut page, "</svg>\n")?;
    Ok(page)
}

// The text of a picture whose bars are these, and that has this grid.
fn draw_on(alloc: Global, grid: &Grid, mut bars: Vec<Bar>) -> Result<Vec<u8>, Undrawn>
    requires { IsGrid grid.now }
    ensures { IfOk result (λ page. IsPage bars.items grid.now.before grid.now.columns page.items) }
{
    push_frame(&mut bars, grid)?;
    let marks = marks_of(alloc, grid, &bars)?;
    Ok(page_of(alloc, grid, &marks)?)
}

/// The text of what is to be drawn.
pub fn draw(alloc: Global, picture: Picture) -> Result<Vec<u8>, Undrawn>
    ensures { IfOk result (λ page. (columns : ℕ) × IsPage picture.bars.items picture.before columns page.items) }
{
    let Picture {
        bars,
        before,
        columns,
    } = picture;
    let grid = Grid::new(alloc, &bars, before, columns)?;
    draw_on(alloc, &grid, bars)
}
