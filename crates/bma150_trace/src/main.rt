// The bench program with next due at the end of each line.
#![tactic(auto)]

fn main(rt: HostRuntime) {
    let mut input = rt.stdin();
    let mut output = rt.stdout();
    let mut errors = rt.stderr();
    bench_stream::stream(&mut input, &mut output, &mut errors, true);
}
