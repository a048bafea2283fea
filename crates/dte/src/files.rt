// Files, with errors that name the file.
use anyhow::anyhow;
use std::{fs, io};

fn named(file: &str, error: io::Error) -> anyhow::Error {
    anyhow!("{file}: {error}")
}

pub(crate) fn read_file(rt: &HostRuntime, file: &str) -> anyhow::Result<Vec<u8>> {
    fs::read(rt, file).map_err(|error| named(file, error))
}

pub(crate) fn write_file(rt: &HostRuntime, file: &str, bytes: &[u8]) -> anyhow::Result<()> {
    fs::write(rt, file, bytes).map_err(|error| named(file, error))
}

// A module's file, and the text in it.
#[derive(Drop)]
pub(crate) struct Module<'a> {
    pub(crate) file: &'a str,
    pub(crate) text: Vec<u8>,
}

fn read_module<'a>(rt: &HostRuntime, file: &'a str) -> anyhow::Result<Module<'a>> {
    let text = read_file(rt, file)?;
    Ok(Module { file, text })
}

// The modules in the files, in their order.
pub(crate) fn read_modules<'a>(
    rt: &HostRuntime,
    files: &'a [String],
) -> anyhow::Result<Vec<Module<'a>>> {
    files
        .iter()
        .map(|file| read_module(rt, file.as_str()))
        .try_collect(rt.alloc())
}
