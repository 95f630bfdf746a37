// varlist: reads an image on standard input and prints its variables, or the rule that it breaks.
#![tactic(auto)]

use model::Layout;

fn main(rt: HostRuntime) {
    let mut image = [0; 65536];
    let (n, _) = streams::read_full(rt.stdin(), &mut image);
    let mut out = [0; 65536];
    let length = report::report(Layout::AUTHENTICATED, &image[..n], &mut out);
    if rt.write_all(slices::cut(&out, 0, length)).is_err() {
        // the program has no exit status of its own
        let _ = rt.eprint("varlist: standard output has not taken the list\n");
    }
}
