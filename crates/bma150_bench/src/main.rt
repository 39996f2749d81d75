// The bench program: commands from standard input, a line for each to standard output.
#![tactic(auto)]

fn main(rt: HostRuntime) {
    let mut input = rt.stdin();
    let mut output = rt.stdout();
    let mut errors = rt.stderr();
    bench_stream::stream(&mut input, &mut output, &mut errors, false);
}
