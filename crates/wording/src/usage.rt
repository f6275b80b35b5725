// What the command can be asked, told to whoever asks for that, or asks nothing or something that it does not know.
// Each way to ask has a line that can be typed as it stands. The command's version stands here too.
use crate::LONGEST_MESSAGE;
use terminal::Output;

// What is asked of a file by its name alone.
fn print_asked_by_name(out: &mut Output) {
    places::print_lines(
        out,
        b"",
        b"turrethog: what an HL7 v2.4 message says, and whether it is one

  ./turrethog check FILE..
      Accepted, or the first fault: its number, what it is in words, and where it stands. Behind several files
      stands a line with how many were accepted, refused, and could not be read.
      ./turrethog check examples/*.hl7

  ./turrethog frames FILE..
      Bytes that were taken off a link, in frames of 0B, message, 1C, 0D. A file may have any length.
      Each frame with its verdict, each that was dropped with its number, how many bytes stand outside
      frames, and one that is open at the end. Status 1 also where one is dropped or open, or there is none.
      ./turrethog frames examples/link.mllp

  ./turrethog show FILE
      Every segment and its parts: each with its address, its state and its text. A result of formatted
      text (OBX-5 where OBX-2 is FT) stands below its address, in its lines. get and lines take these addresses.
      ./turrethog show examples/blood-count.hl7

",
    );
}

// What is asked with words behind the file's name, and of the command itself.
fn print_asked_by_words(out: &mut Output) {
    places::print_lines(
        out,
        b"",
        b"  ./turrethog get FILE ADDRESS
      One element: its state (absent, empty, null or present) and its bytes as they were sent. ADDRESS is
      PID-5, PID-5.1 or PID-5.1.2 for a field, its component and its subcomponent, PID-3[2] for a repetition,
      and OBX[3]-5 in the third OBX; all count from 1. In words it is PID 5 1 1 2 (segment, field, repetition,
      component, subcomponent), where 0 is the whole, and the segment may be a number, 0 for the first.
      ./turrethog get examples/blood-count.hl7 PID-5.1

  ./turrethog lines FILE ADDRESS
      The lines of formatted text, as a clinician reads them: one element, with its commands obeyed. One that is
      not present, or has no lines, stands as for get; why it has none is said on standard error.
      ./turrethog lines examples/histology.hl7 OBX-5

  ./turrethog ack FILE TIME ID
      The acknowledgement, AA, AE or AR, of a message at a time, with an ID of its own. Its bytes are written raw.
      Which of the three, and why, is said on standard error. Status 0 for AA, and 1 for AE and AR.
      ./turrethog ack examples/blood-count.hl7 20240229093001+0000 ACK0001

  ./turrethog check --json FILE..
      For another program: an object of JSON a line, as docs/JSON.md tells. frames, show and get take --json too,
      directly behind the command.
      ./turrethog show --json examples/potassium.hl7

  ./turrethog --help
  ./turrethog --version
      This text, also for -h and help, and which version of the command this is.

FILE may be - for standard input. With --json directly behind check, frames, show or get the answer is JSON.
",
    );
}

// The usage text. The LF at the end of a line is printed as any LF that stands in a message.
pub fn print_usage(out: &mut Output) {
    print_asked_by_name(out);
    print_asked_by_words(out);
    out.print_counted(
        b"A message may have up to ",
        LONGEST_MESSAGE,
        b" bytes here; the library takes ",
    );
    out.print_number(alphabet::message_limit());
    out.end_line();
    out.print_line(
        b"Bytes and segments count from 0. A byte that is not printable ASCII stands as hex in braces: LF is \n",
    );
    places::print_lines(
        out,
        b"",
        b"Exit status: 0 all is well; 1 a message is refused, or has no such segment, or is answered with AE or AR;
2 the words are wrong, a file cannot be read, or the output not written.
",
    );
}

// Which version of the command this is, and of what.
pub fn print_version(out: &mut Output) {
    out.print_line(b"turrethog 0.1.0, for HL7 v2.4");
}
