// strips FILE [MAP [OUT]]: reads a picture of which not every block came, and says for each segment what came of it. With OUT it
// writes the L plane as a picture, by the ending of OUT in grey or with a colour for each segment that is not good.
#![tactic(auto)]

ghost use Rattle.std.specs.Prelude.{◌≤◌, IfOk, length};

use buffers::filled;
use report::arguments::Target;
use report::complain::{Complained, Complaints};
use report::piecewise::Piecewise;
use report::{arguments, load};
use std::rt::{Env, Files};

// What went wrong.
mod complain;

// One more than the most bytes of a picture's file, so that a longer file is noticed; and the same for the map of the longest file.
const FILE: usize = 2097153;

const MAP: usize = 4097;

// The longest name of a file.
const NAME: usize = 4096;

// The program's own name and FILE, MAP and OUT.
const MOST_ARGUMENTS: usize = 4;

// The map as the program was given it: without one every block came. A map that is not as long as the picture has blocks is
// complained of, an empty one too, which the reader would take for a picture that came whole.
fn map_of<'a>(
    rt: &impl Files,
    complaints: &Complaints<impl Print>,
    name: Option<&[u8]>,
    blocks: usize,
    buffer: &'a mut [u8],
) -> Result<&'a [u8], Complained>
    ensures { IfOk result (λ map. length map.now ≤ length buffer.old) }
{
    let most = buffer.len();
    let Some(name) = name else {
        return Ok(&buffer[..blocks.min(most)]);
    };
    let map = load::load(rt, complaints, "cannot read the map '", name, buffer)?;
    if map.len() == blocks {
        Ok(map)
    } else {
        Err(complain::wrong_length(complaints, name, map.len(), most, blocks))
    }
}

// Both files are read before anything is reported.
fn run(
    rt: &(impl Print + Files),
    complaints: &Complaints<impl Print>,
    name: &[u8],
    map_name: Option<&[u8]>,
    target: Option<Target>,
) -> Result<(), Complained> {
    let mut file = filled::<FILE>(0);
    let picture = load::load(rt, complaints, "cannot read the picture '", name, &mut file)?;
    if report::MOST < picture.len() {
        return Err(complain::too_large(complaints, name, report::MOST));
    }
    // Every block came, as far as no map says otherwise.
    let mut came = filled::<MAP>(1);
    let blocks = seen::blocks_in(picture.len());
    let map = map_of(rt, complaints, map_name, blocks, &mut came)?;
    let out = Piecewise(rt);
    out.bytes(name);
    out.print("\n");
    report::show(rt, complaints, target, picture, map)
}

// Where it is not clear what to write, nothing is read.
fn start(
    rt: &(impl Print + Files + Env),
    complaints: &Complaints<impl Print>,
) -> Result<(), Complained> {
    let mut name = filled::<NAME>(0);
    let mut map = filled::<NAME>(0);
    let mut out = filled::<NAME>(0);
    let name = arguments::argument(rt, complaints, 1, &mut name);
    let map = arguments::argument(rt, complaints, 2, &mut map);
    let out = arguments::argument(rt, complaints, 3, &mut out);
    // Each of them is complained of that is too long.
    let (name, map, out) = (name?, map?, out?);
    let Some(name) = name else {
        return Err(complain::usage(complaints));
    };
    run(
        rt,
        complaints,
        name,
        map,
        arguments::target_of(complaints, out)?,
    )
}

fn main(rt: HostRuntime) {
    let complaints = Complaints {
        errors: rt.stderr(),
        program: "strips",
    };
    let given = arguments::count(&rt);
    let _ = if MOST_ARGUMENTS < given {
        Err(complain::too_many(&complaints, given - 1))
    } else {
        start(&rt, &complaints)
    };
}
