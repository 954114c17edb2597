#![tactic(auto)]
// The program: one line, on standard output, on the set in the current folder, read into buffers of 65,536 bytes. Where the line
// cannot be written, standard error says so.

use files::Paths;

const BUFFER: usize = 65_536;

fn main(rt: HostRuntime) {
    let mut r = [0u8; BUFFER];
    let mut s = [0u8; BUFFER];
    let mut x = [0u8; BUFFER];
    let paths = Paths {
        r: b"set.r01",
        s: b"set.s01",
        x: b"set.x01",
    };
    let printed = files::print(&rt, paths, &mut r, &mut s, &mut x);
    if !printed.whole {
        let _ = eprintln!(rt; "spschk: the line could not be written");
    }
}
