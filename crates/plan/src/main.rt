// The program `plan`: a set's text on standard input, its plan's lines or one refusal's line on standard output, and nothing else.
// It is thin: what it answers is `clampfern::answer`, which is proved for every text. Where the input cannot be read, standard output stays
// empty, which no answer is; that, and an answer that cannot be written, is a line on standard error, since no program has an exit status here.
#![tactic(auto)]

use streams::INPUT_MOST;

fn main(rt: HostRuntime) {
    let mut input = [0u8; INPUT_MOST];
    let complaint = b"plan: the input cannot be read\n";
    if let Some(count) = streams::whole_input(&rt, &mut input, complaint) {
        // Bytes and a size: it is the answer's public form.
        let lines = clampfern::answer(&input[..count]);
        if streams::write_output(rt.stdout(), &lines.bytes[..lines.size]).is_err() {
            streams::complain(rt.stderr(), b"plan: the answer cannot be written\n");
        }
    }
}
