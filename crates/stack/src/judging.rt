// The judgement of a stack, in 01's order: LAYERS, SHAPE, SPAN, then trace by trace, then PLANES.
ghost use Rattle.std.specs.Prelude.{◌≡◌, ℕ, suc, ◌/◌, ◌<◌, length};
ghost use Rattle.whole.specs.Tells.{Tells};
ghost use Rattle.trace.specs.Faults.{Accepted};
ghost use Rattle.stack.specs.Entries.{entry, trace_of, stop, start};
ghost use Rattle.stack.specs.Faults.{Breaks, PlaneFault, LayersRight, Spanned, StackJudged};

use crate::layers::{layer_at, layers_right, steps_up_to, trace_of};
use crate::{Fit, Layer};
use fault::{Fault, Refusal, refuse};
use trace::in_range;

// Takes every stack and every list.
pub fn judge_stack(layers: &[Layer], coords: &[i32]) -> Result<Fit, Refusal>
    ensures { StackJudged layers.now coords.now result }
{
    if !layers_right(layers) {
        return Err(refuse(Fault::Layers, 0));
    }
    if coords.len() % 2 == 1 {
        return Err(refuse(Fault::Shape, 0));
    }
    if let Some(broken) = (0..layers.len()).find(|k| breaks(layers, coords, *k)) {
        return Err(refuse(Fault::Span, broken));
    }
    judge_traces(layers, coords)
}

// Whether a layer stops at `end`. What would wrap is no sum, so no count can wrap into a right one.
fn stops_at(layer: Layer, end: usize) -> bool
    ensures { Tells (stop layer ≡ end) result }
{
    layer.first.checked_add(layer.count) == Some(end)
}

// Whether entry `k` starts where the one before stops, and the first at point 0.
fn starts_right(layers: &[Layer], k: usize) -> bool
    ensures { Tells ((entry layers.now k).first ≡ start layers.now k) result }
{
    let layer = layer_at(layers, k);
    if k == 0 {
        layer.first == 0
    } else {
        stops_at(layer_at(layers, k - 1), layer.first)
    }
}

// Whether entry `k`, if it is the last, stops at the list's end.
fn ends_right(layers: &[Layer], points: usize, k: usize) -> bool
    requires { k < length layers.now }
    ensures { Tells (suc k ≡ length layers.now → stop (entry layers.now k) ≡ points) result }
{
    k + 1 != layers.len() || stops_at(layer_at(layers, k), points)
}

// Whether entry `k` breaks the stack rule.
fn breaks(layers: &[Layer], coords: &[i32], k: usize) -> bool
    requires { k < length layers.now }
    ensures { Tells (Breaks layers.now coords.now k) result }
{
    !(starts_right(layers, k) && ends_right(layers, coords.len() / 2, k))
}

// Trace by trace, from the lowest: so the first refusal is at the lowest place at fault, and ends the call.
fn judge_traces(layers: &[Layer], coords: &[i32]) -> Result<Fit, Refusal>
    requires { LayersRight layers.now × Spanned layers.now coords.now }
    ensures { StackJudged layers.now coords.now result }
{
    for (k, layer) in layers.iter().enumerate() {
        let judged = trace::judge(trace_of(coords, *layer));
        let Ok(_) = judged else {
            return Err(trace::refused(judged, k));
        };
    }
    judge_planes(layers, coords)
}

// Whether the plane of layer `k` is outside its range, or not above the one below. Layer 0 has none below.
fn plane_wrong(layers: &[Layer], k: usize) -> bool
    ensures { Tells (PlaneFault layers.now k) result }
{
    let plane = layer_at(layers, k).plane;
    !in_range(plane) || (0 < k && plane <= layer_at(layers, k - 1).plane)
}

// What is left to judge once every trace is fit. 19 bands of at most 500 steps have at most 9,500, so that nothing is cut off.
fn judge_planes(layers: &[Layer], coords: &[i32]) -> Result<Fit, Refusal>
    requires { LayersRight layers.now × Spanned layers.now coords.now
        × ((k : ℕ) → k < length layers.now → Accepted (trace_of coords.now (entry layers.now k))) }
    ensures { StackJudged layers.now coords.now result }
{
    if let Some(low) = (0..layers.len()).find(|k| plane_wrong(layers, *k)) {
        return Err(refuse(Fault::Planes, low));
    }
    Ok(Fit {
        points: coords.len() / 2,
        steps: steps_up_to(layers, 9_500),
    })
}
