// A file's bytes written, and what was written told.
use crate::arguments::Target;
use crate::complain::{Complained, Complaints};
use crate::load::path_of;
use crate::piecewise::Piecewise;
use patchy::Sizes;
use records::crc::crc32;
use std::fs::File;
use std::io;
use std::io::Write;
use std::rt::Files;

fn create<R: Files>(rt: &R, name: &[u8]) -> io::Result<R::File> {
    File::create(rt, path_of(name)?)
}

fn write_file(
    rt: &impl Files,
    complaints: &Complaints<impl Print>,
    name: &[u8],
    file: &[u8],
) -> Result<(), Complained> {
    create(rt, name)
        .map_err(|error| complaints.failed("cannot write '", name, &error))?
        .write_all(file)
        .map_err(|error| complaints.failed("cannot write the whole of '", name, &error))
}

fn tell(out: &Piecewise<impl Print>, target: Target, sizes: Sizes, file: &[u8]) {
    let kind = target.kind;
    out.print("  written   ");
    out.bytes(target.name);
    out.at_once(format_args!(": {kind}, "));
    print!(out;
        "{} x {}, {} bytes, CRC-32 ",
        sizes.width,
        sizes.height,
        file.len()
    );
    out.at_once(format_args!("{:08x}", crc32(file)));
    out.print("\n");
}

// A file that cannot be written is complained of.
pub fn save(
    rt: &(impl Print + Files),
    complaints: &Complaints<impl Print>,
    target: Target,
    sizes: Sizes,
    file: &[u8],
) -> Result<(), Complained> {
    write_file(rt, complaints, target.name, file)?;
    tell(&Piecewise(rt), target, sizes, file);
    Ok(())
}
