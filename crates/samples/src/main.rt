// Sample 13 of document 01, which is run: an accepted message is acknowledged, into a buffer that just takes it and
// into one that is a byte short. What it writes is held to the stored output. The starred samples are the table in
// specs/, and are proved.
#![tactic(auto)]

use alphabet::Refusal;

// Standard output, by its number.
const STDOUT_FILENO: i32 = 1;

// The code that acknowledging gives for a buffer of dots, in words, behind the buffer as it is then.
fn run(buffer: &mut [u8]) {
    let message = b"MSH|^~\\&|LAB|PATH|GP|CLINIC|20240229093000+1000||ORU^R01|A7|P|2.4\rOBR|1\r";
    let answer = acknowledgement::acknowledge(message, b"20240229093001+1000", b"K1", buffer);
    io::write_all(STDOUT_FILENO, buffer);
    match answer {
        Ok(76) => io::write_all(STDOUT_FILENO, b" 0\n76 bytes were written\n"),
        Ok(_) => io::write_all(STDOUT_FILENO, b" 0\n"),
        Err(fault) if fault.kind == Refusal::AcknowledgementTooLong => {
            io::write_all(STDOUT_FILENO, b" 10\nnothing was written\n")
        }
        Err(_) => io::write_all(STDOUT_FILENO, b"nothing was written\n"),
    };
}

fn main() {
    let mut enough = [b'.'; 76];
    let mut short = [b'.'; 75];
    run(&mut enough);
    run(&mut short);
}
