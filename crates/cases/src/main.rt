// cases: for each file that an argument names, its name, and what varlist prints of it if it is an image, or the lines of its steps if it is a
// script of calls. What standard output does not take is lost.
#![tactic(auto)]

mod many;
mod play;
mod print;
mod rules;
mod step;
mod tenants;

use std::rt::{Env, Files};
use std::{fs, io, str};

// As a script's path ends.
const SCRIPT: &[u8] = b".calls";

fn run(rt: &impl Print, path: &[u8], bytes: &[u8]) {
    if path.ends_with(SCRIPT) {
        play::play(rt, bytes);
    } else {
        play::varlist(rt, bytes);
    }
}

// The file of a path, to be read. A path is text.
fn open<R: Files>(rt: &R, path: &[u8]) -> io::Result<R::File> {
    match str::from_utf8(path) {
        Ok(name) => fs::open(rt, name),
        Err(_) => Err(io::Error::from(io::ErrorKind::InvalidInput)),
    }
}

fn run_file(rt: &(impl Files + Print + Eprint), path: &[u8]) {
    let _ = rt.write_all(path);
    let _ = println!(rt);
    let mut bytes = [0; 65536];
    let (n, _) = match open(rt, path) {
        Ok(file) => streams::read_full(file, &mut bytes),
        Err(e) => {
            let name = str::from_utf8(path).unwrap_or("a path");
            let _ = eprintln!(rt; "{name}: {e}");
            return;
        }
    };
    run(rt, path, &bytes[..n]);
}

// The file of an argument is run; whether there is such an argument.
fn run_arg(rt: &(impl Env + Files + Print + Eprint), i: usize) -> bool {
    let mut path = [0; 4096];
    let n = rt.arg(i, &mut path).unwrap_or(0);
    if n == 0 {
        return false;
    }
    run_file(rt, &path[..n]);
    true
}

fn main(rt: HostRuntime) {
    for i in 1..100000 {
        if !run_arg(&rt, i) {
            return;
        }
    }
}
