// Runs the vectors of data/ through the libraries and writes what came of each, one line a record or a reading, to be held to `stdout`.
// Models written from the rules of docs/SPECIFICATION.md made the records, and libtiff the pictures (tests/vectors.py): nothing expected is in here.
#![tactic(auto)]

use files::Listed;
use std::io;
use std::io::Write;
use std::rt::Files;
use walk::Record;

// What a reading is asked for.
mod ask;

// Files, by their names.
mod files;

// Header, directories, profile and ranges.
mod front_calls;

// Packets, planes and predictors.
mod leaf_calls;

// The buffers that calls are lent.
mod lent;

// What is written.
mod line;

// Patchy reading.
mod patchy_calls;

// Pictures from another writer.
mod pictures;

// The receiver of a bus.
mod receiver_calls;

// Strict reading.
mod strict_calls;

// The records of a file.
mod walk;

// Units that suffice for each of libtiff's pictures but the camera's, and for that one.
const UNITS: usize = 1000000;

const CAMERA_UNITS: usize = 10000000;

// Makes a call on each record of some files.
fn run_records<W: Write, F: Fn(&mut W, Record<'_>) -> io::Result<()>>(
    rt: &impl Files,
    out: &mut W,
    folder: &str,
    names: &str,
    call: F,
) -> io::Result<()>
    requires { F.IsAlwaysCallable call }
{
    let listed = Listed {
        folder,
        names,
        ending: ".bin",
    };
    files::run_files(rt, out, listed, |out, _, file| {
        walk::run_records(out, file, &call)
    })
}

fn run_leaf<W: Write>(rt: &impl Files, out: &mut W) -> io::Result<()> {
    run_records(
        rt,
        out,
        "leaf/",
        "packets_accepted packets_refused packets_edges packets_random",
        leaf_calls::run_packets,
    )?;
    run_records(rt, out, "leaf/", "planes", leaf_calls::run_planes)?;
    run_records(rt, out, "leaf/", "uv", leaf_calls::run_uv)?;
    run_records(rt, out, "leaf/", "predictor64", leaf_calls::run_predictor64)?;
    run_records(rt, out, "leaf/", "predictor3", leaf_calls::run_predictor3)
}

fn run_front<W: Write>(rt: &impl Files, out: &mut W) -> io::Result<()> {
    run_records(
        rt,
        out,
        "front/",
        "headers places tags pages values profile threes sides sizes",
        front_calls::run_format,
    )?;
    run_records(
        rt,
        out,
        "front/",
        "arrivals arrivals_body arrivals_three random_small random_large",
        front_calls::run_format,
    )?;
    run_records(rt, out, "front/", "ranges", front_calls::run_range)?;
    run_records(
        rt,
        out,
        "front/",
        "mono_heads mono_values mono_sizes mono_arrivals mono_random",
        front_calls::run_format,
    )
}

fn run_strict<W: Write>(rt: &impl Files, out: &mut W) -> io::Result<()> {
    run_records(
        rt,
        out,
        "strict/",
        "layouts entries inline inline_ranges ranges budgets packets handles decodes buffers",
        strict_calls::run_reading,
    )?;
    run_records(rt, out, "strict/", "forged", strict_calls::run_forged)?;
    run_records(rt, out, "strict/", "bounds", strict_calls::run_bound)?;
    run_records(
        rt,
        out,
        "strict/",
        "random_a random_b mono_layouts mono_ranges mono_packets mono_handles mono_decodes mono_random",
        strict_calls::run_reading,
    )
}

fn run_patchy<W: Write>(rt: &impl Files, out: &mut W) -> io::Result<()> {
    run_records(
        rt,
        out,
        "patchy/",
        "order rooms entries inline inline_blocks inline_ranges quality metadata single_first single_last stale whole random",
        patchy_calls::run,
    )?;
    run_records(
        rt,
        out,
        "patchy/",
        "mono_rooms mono_quality mono_blocks mono_pages mono_stale mono_whole mono_random",
        patchy_calls::run,
    )
}

fn run_receiver<W: Write>(rt: &impl Files, out: &mut W) -> io::Result<()> {
    run_records(rt, out, "receiver/", "starts", receiver_calls::run_start)?;
    run_records(
        rt,
        out,
        "receiver/",
        "blocks rooms",
        receiver_calls::run_block,
    )?;
    run_records(
        rt,
        out,
        "receiver/",
        "cuts foreign sizes orders lendings random_a random_b random_c",
        receiver_calls::run_trace,
    )
}

// Reads each page of some pictures, with so many units.
fn run_pages(
    rt: &impl Files,
    out: &mut impl Write,
    units: usize,
    folder: &str,
    names: &str,
) -> io::Result<()> {
    let listed = Listed {
        folder,
        names,
        ending: ".tif",
    };
    files::run_files(rt, out, listed, |out, name, file| {
        pictures::run_pages(rt, out, units, name, file)
    })
}

fn run_pictures(rt: &impl Files, out: &mut impl Write) -> io::Result<()> {
    run_pages(rt, out, CAMERA_UNITS, "pictures/", "c01_640x480_ring_l")?;
    run_pages(
        rt,
        out,
        UNITS,
        "pictures/",
        "p01_3pages_l s01_1x1_l s03_2x1_marked_l s04_5x5_rps2_b s06_31x9_onestrip_grad_l s07_64x48_rps8_ring_l",
    )?;
    run_pages(
        rt,
        out,
        UNITS,
        "pictures/",
        "s08_129x3_rps1_flat_b s09_517x5_rps2_runs_l s11_16x16_alluv_l s13_40x30_rps7_neg_b s16_53x10_rps4_packets_l",
    )?;
    run_pages(
        rt,
        out,
        UNITS,
        "pictures/",
        "t01_16x16_t16_l t03_33x47_t32x16_b t05_50x20_t32x16_neg_l t08_96x16_t96x16_alluv_l",
    )?;
    run_pages(
        rt,
        out,
        UNITS,
        "pictures/",
        "v01_26x14_shortarrays_l v03_45x9_tagorder_l v06_6x480_dirfirst_60strips_l",
    )?;
    run_pages(
        rt,
        out,
        UNITS,
        "pictures/control-zero/",
        "z01_30x6_rps4_l z03_20x17_t16_l",
    )?;
    run_pages(
        rt,
        out,
        UNITS,
        "pictures/",
        "m01_1x1_zero_l m02_2x1_marked_b m03_31x9_onestrip_grad_l m04_40x30_rps7_neg_b m05_517x5_rps2_runs_l",
    )?;
    run_pages(
        rt,
        out,
        UNITS,
        "pictures/",
        "m06_33x20_t32x16_noise_b m07_20x17_t16_halves_l m08_50x33_t48x32_neg_l m09_3pages_b",
    )
}

fn main(rt: HostRuntime) -> io::Result<()> {
    let mut out = io::writer(&rt);
    run_leaf(&rt, &mut out)?;
    run_front(&rt, &mut out)?;
    run_strict(&rt, &mut out)?;
    run_patchy(&rt, &mut out)?;
    run_receiver(&rt, &mut out)?;
    run_pictures(&rt, &mut out)
}
