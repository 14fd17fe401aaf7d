// The program planread: prints the reading of the files job.w32 and plan.w32 of the current folder, or why there is none.
#![tactic(auto)]

fn main(rt: HostRuntime) {
    reader::run(&rt);
}
