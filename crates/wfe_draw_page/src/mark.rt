// What is drawn, in order: each bar that is seen, with where it lies.
ghost use Rattle.std.specs.Prelude.{◌≡◌, ℕ, All, IfOk, List, OnOk, Some, slice_get};
ghost use Rattle.wfe_draw_lives.specs.declared.bar.Bar.{Bar as AnyBar};
ghost use Rattle.wfe_draw_page.specs.Within.{AddsFrame, Fits, IsGrid};

use crate::grid::{Frame, Grid};
use std::alloc::{AllocError, Global};
use wfe_draw_lives::{Bar, Lane, Shade};

/// A bar, and where it lies.
#[derive(Clone, Copy)]
pub struct Mark {
    pub frame: Frame,
    pub bar: Bar,
}

// Layers, from the lowest on.
const LAYERS: u32 = 4;

// The layer of a bar: lines across lie below the bars, and what scans do above them.
fn layer(shade: Shade) -> u32 {
    match shade {
        Shade::Ground => 0,
        Shade::Move => 1,
        Shade::Reads | Shade::Keeps => 3,
        _ => 2,
    }
}

// Appends the names of the lanes.
fn push_names(bars: &mut Vec<Bar>, grid: &Grid) -> Result<(), AllocError>
    ensures { OnOk result (AddsFrame bars.old.items bars.new.items) }
{
    for lane in grid.lanes().values() {
        bars.push(Bar::still(Shade::Name, *lane))?;
    }
    Ok(())
}

// Appends bars of these colours on the page.
fn push_colours(bars: &mut Vec<Bar>, shades: &[Shade]) -> Result<(), AllocError>
    ensures { OnOk result (AddsFrame bars.old.items bars.new.items) }
{
    for shade in shades {
        bars.push(Bar::still(*shade, Lane::Page))?;
    }
    Ok(())
}

/// Appends the background, the legend, and the names of the lanes.
pub fn push_frame(bars: &mut Vec<Bar>, grid: &Grid) -> Result<(), AllocError>
    ensures { OnOk result (AddsFrame bars.old.items bars.new.items) }
{
    let colours = [
        Shade::Ground,
        Shade::Call,
        Shade::Publishes,
        Shade::Reads,
        Shade::Stands,
        Shade::InHand,
        Shade::Linked,
        Shade::Cut,
        Shade::Waits,
        Shade::Keeps,
    ];
    push_names(bars, grid)?;
    push_colours(bars, &colours)
}

// Appends the mark of a bar, where it is seen.
fn push_mark(marks: &mut Vec<Mark>, grid: &Grid, bar: &Bar) -> Result<(), AllocError>
    requires { IsGrid grid.now }
    ensures { (bars : List AnyBar) (place : ℕ) → slice_get bars place ≡ Some bar.now → All (Fits grid.now bars) marks.old.items → OnOk result (All (Fits grid.now bars) marks.new.items) }
{
    if let Some(frame) = grid.frame(bar) {
        marks.push(Mark { frame, bar: *bar })?;
    }
    Ok(())
}

// Appends the marks of a layer. (the legend is one of the bars, and lies on its layers)
fn push_layer(marks: &mut Vec<Mark>, grid: &Grid, bars: &[Bar], of: u32) -> Result<(), AllocError>
    requires grid { IsGrid grid.now }
    requires fits { All (Fits grid.now bars.now) marks.old.items }
    ensures { OnOk result (All (Fits grid.now bars.now) marks.new.items) }
{
    for bar in bars {
        if layer(bar.shade) == of {
            push_mark(marks, grid, bar)?;
        }
    }
    Ok(())
}

/// The marks of all bars that are seen, each within the picture.
pub fn marks_of(alloc: Global, grid: &Grid, bars: &[Bar]) -> Result<Vec<Mark>, AllocError>
    requires { IsGrid grid.now }
    ensures { IfOk result (λ marks. All (Fits grid.now bars.now) marks.items) }
{
    let mut marks = Vec::new(alloc);
    for of in 0..LAYERS {
        push_layer(&mut marks, grid, bars, of)?;
    }
    Ok(marks)
}
