// season: reads a script on standard input, plays it on an empty image, and prints a line for each of its steps; or that it is refused.
#![tactic(auto)]

fn main(rt: HostRuntime) {
    // one byte more than a script may have, so that a longer one is seen
    let mut script = [0; 65537];
    // what a read that fails leaves is the front of a script, which is none
    let (n, _) = streams::read_full(rt.stdin(), &mut script);
    let mut image = [0; desk::LARGEST_IMAGE];
    let mut content = [0; layout::CONTENT];
    let mut out = [0; 65536];
    let length = desk::season(&script[..n], &mut image, &mut content, &mut out);
    if rt.write_all(slices::cut(&out, 0, length)).is_err() {
        // the program has no exit status of its own
        let _ = rt.eprint("season: standard output has not taken the lines\n");
    }
}
