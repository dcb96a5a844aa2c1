//! Worked examples: how texts are read, stated on the definitions alone. Nothing runs; the check computes them.
#![tactic(auto, unfolding(trace_text::specs::Before::is_held, trace_text::specs::Before::has_ended, trace_text::specs::Before::was_posted, trace_text::specs::Before::was_taken, trace_text::specs::Grammar::thread_of, trace_text::specs::Grammar::command_of, trace_text::specs::Grammar::number_at, trace_text::specs::Grammar::name_at, trace_text::specs::Grammar::tray_read, trace_text::specs::Grammar::one_number, trace_text::specs::Grammar::two_numbers, trace_text::specs::Grammar::three_numbers, trace_text::specs::Grammar::call_read, trace_text::specs::Grammar::fitting, trace_text::specs::Grammar::filled_line, trace_text::specs::Grammar::line_of, trace_text::specs::Grammar::lines_after, trace_text::specs::Grammar::version_of, trace_text::specs::Grammar::reading_of, trace_text::specs::Numbers::numeral_value))]

ghost use Rattle.std.specs.Prelude.{◌≡◌, ◌∷◌, [], ◌-◌, ◌^◌, codes, Some, None, IsOk};
ghost use Rattle.trace_text.specs.Grammar.{whole, faulty, reading_of};
ghost use Rattle.trace_text.specs.Numbers.{numeral_value};

use trace_text::{BadWhy, Call};

/// Fields that are numbers.
fn numbers_are_decimal()
    ensures zero { numeral_value (codes "0") ≡ Some 0 }
    ensures request { numeral_value (codes "1032") ≡ Some 1032 }
    ensures largest { numeral_value (codes "18446744073709551615") ≡ Some (2 ^ 64 - 1) }
{}

/// Fields that are no numbers.
fn other_fields_are_no_numbers()
    ensures too_large { numeral_value (codes "18446744073709551616") ≡ None }
    ensures too_long { numeral_value (codes "184467440737095516150") ≡ None }
    ensures leading_zero { numeral_value (codes "01") ≡ None }
    ensures two_zeros { numeral_value (codes "00") ≡ None }
    ensures empty { numeral_value [] ≡ None }
    ensures sign { numeral_value (codes "+1") ≡ None }
    ensures minus { numeral_value (codes "-1") ≡ None }
    ensures letter { numeral_value (codes "1a") ≡ None }
    ensures hexadecimal { numeral_value (codes "0x8") ≡ None }
    ensures blank { numeral_value (codes "1 ") ≡ None }
{}

/// The first line has a newline, and is the header.
fn the_first_line_is_the_header()
    ensures empty { reading_of [] ≡ faulty 1 BadWhy.Cut }
    ensures cut { reading_of (codes "ptmtrace 1") ≡ faulty 1 BadWhy.Cut }
    ensures another { reading_of (codes "ptmtrace 3\n") ≡ faulty 1 BadWhy.Header }
    ensures nothing { reading_of (codes "\n") ≡ faulty 1 BadWhy.Header }
    ensures a_call { reading_of (codes "0 m 1 24\n") ≡ faulty 1 BadWhy.Header }
    ensures cut_and_another { reading_of (codes "ptmtrace 3") ≡ faulty 1 BadWhy.Cut }
{}

/// Lines with one fault each, in the order of the faults.
fn each_fault_stands_alone()
    ensures cut { reading_of (codes "ptmtrace 1\n0 m 1 24") ≡ faulty 2 BadWhy.Cut }
    ensures no_field { reading_of (codes "ptmtrace 1\n\n") ≡ faulty 2 BadWhy.Fields }
    ensures one_field { reading_of (codes "ptmtrace 1\n0\n") ≡ faulty 2 BadWhy.Fields }
    ensures empty_field { reading_of (codes "ptmtrace 1\n0  m 1 24\n") ≡ faulty 2 BadWhy.Fields }
    ensures thread { reading_of (codes "ptmtrace 1\n64 m 1 24\n") ≡ faulty 2 BadWhy.Thread }
    ensures ended { reading_of (codes "ptmtrace 1\n1 x\n1 m 1 24\n") ≡ faulty 3 BadWhy.Ended }
    ensures command { reading_of (codes "ptmtrace 1\n0 mm 1 24\n") ≡ faulty 2 BadWhy.Command }
    ensures few_fields { reading_of (codes "ptmtrace 1\n0 m 1\n") ≡ faulty 2 BadWhy.Fields }
    ensures many_fields { reading_of (codes "ptmtrace 1\n0 m 1 24 5\n") ≡ faulty 2 BadWhy.Fields }
    ensures number { reading_of (codes "ptmtrace 1\n0 m 1 024\n") ≡ faulty 2 BadWhy.Number }
    ensures main_exit { reading_of (codes "ptmtrace 1\n0 x\n") ≡ faulty 2 BadWhy.MainExit }
    ensures zero_name { reading_of (codes "ptmtrace 1\n0 m 0 24\n") ≡ faulty 2 BadWhy.Name }
    ensures large_name { reading_of (codes "ptmtrace 1\n0 m 65536 24\n") ≡ faulty 2 BadWhy.Name }
    ensures tray { reading_of (codes "ptmtrace 1\n0 t 1 65536\n") ≡ faulty 2 BadWhy.Tray }
    ensures held { reading_of (codes "ptmtrace 1\n0 m 1 24\n0 c 1 1 24\n") ≡ faulty 3 BadWhy.Held }
    ensures not_held { reading_of (codes "ptmtrace 1\n0 r 1 24\n") ≡ faulty 2 BadWhy.NotHeld }
    ensures posted_twice { reading_of (codes "ptmtrace 1\n0 m 1 24\n0 p 1 7\n1 m 1 24\n1 p 1 7\n") ≡ faulty 5 BadWhy.TrayTwice }
    ensures taken_twice { reading_of (codes "ptmtrace 1\n1 t 1 7\n2 t 1 7\n") ≡ faulty 3 BadWhy.TrayTwice }
{}

/// A line without its newline is cut, whatever else is wrong with it.
fn a_cut_line_is_only_cut()
    ensures fields { reading_of (codes "ptmtrace 1\n0") ≡ faulty 2 BadWhy.Cut }
    ensures thread { reading_of (codes "ptmtrace 1\n64 m 1 24") ≡ faulty 2 BadWhy.Cut }
    ensures command { reading_of (codes "ptmtrace 1\n0 y") ≡ faulty 2 BadWhy.Cut }
    ensures not_held { reading_of (codes "ptmtrace 1\n0 f 1") ≡ faulty 2 BadWhy.Cut }
{}

/// An empty field, or fewer than two, comes before what the fields say.
fn empty_fields_come_before_what_fields_say()
    ensures thread { reading_of (codes "ptmtrace 1\n64 \n") ≡ faulty 2 BadWhy.Fields }
    ensures thread_alone { reading_of (codes "ptmtrace 1\n64\n") ≡ faulty 2 BadWhy.Fields }
    ensures ended { reading_of (codes "ptmtrace 1\n1 x\n1 \n") ≡ faulty 3 BadWhy.Fields }
    ensures command { reading_of (codes "ptmtrace 1\n0 y \n") ≡ faulty 2 BadWhy.Fields }
    ensures number { reading_of (codes "ptmtrace 1\n0 m 1 \n") ≡ faulty 2 BadWhy.Fields }
    ensures not_held { reading_of (codes "ptmtrace 1\n0 f  1\n") ≡ faulty 2 BadWhy.Fields }
{}

/// A first field that is no thread comes before what stands behind it.
fn threads_come_before_commands()
    ensures command { reading_of (codes "ptmtrace 1\n00 y\n") ≡ faulty 2 BadWhy.Thread }
    ensures fields { reading_of (codes "ptmtrace 1\n64 m\n") ≡ faulty 2 BadWhy.Thread }
    ensures number { reading_of (codes "ptmtrace 1\n64 f a\n") ≡ faulty 2 BadWhy.Thread }
    ensures main_exit { reading_of (codes "ptmtrace 1\n00 x\n") ≡ faulty 2 BadWhy.Thread }
    ensures name { reading_of (codes "ptmtrace 1\n64 f 0\n") ≡ faulty 2 BadWhy.Thread }
    ensures not_held { reading_of (codes "ptmtrace 1\n64 f 1\n") ≡ faulty 2 BadWhy.Thread }
{}

/// A thread that has ended comes before what stands behind it.
fn ended_threads_come_before_commands()
    ensures command { reading_of (codes "ptmtrace 1\n1 x\n1 y\n") ≡ faulty 3 BadWhy.Ended }
    ensures fields { reading_of (codes "ptmtrace 1\n1 x\n1 m\n") ≡ faulty 3 BadWhy.Ended }
    ensures number { reading_of (codes "ptmtrace 1\n1 x\n1 f a\n") ≡ faulty 3 BadWhy.Ended }
    ensures name { reading_of (codes "ptmtrace 1\n1 x\n1 f 0\n") ≡ faulty 3 BadWhy.Ended }
    ensures held { reading_of (codes "ptmtrace 1\n1 m 1 24\n1 x\n1 m 1 24\n") ≡ faulty 4 BadWhy.Ended }
    ensures not_held { reading_of (codes "ptmtrace 1\n1 x\n1 f 1\n") ≡ faulty 3 BadWhy.Ended }
{}

/// A second field that is no command, and then another number of fields, come before what these fields say.
fn commands_and_counts_come_before_numbers()
    ensures no_command { reading_of (codes "ptmtrace 1\n0 y 1 2 3 4\n") ≡ faulty 2 BadWhy.Command }
    ensures no_command_and_number { reading_of (codes "ptmtrace 1\n0 y a\n") ≡ faulty 2 BadWhy.Command }
    ensures number { reading_of (codes "ptmtrace 1\n0 m a\n") ≡ faulty 2 BadWhy.Fields }
    ensures main_exit { reading_of (codes "ptmtrace 1\n0 x 1\n") ≡ faulty 2 BadWhy.Fields }
    ensures name { reading_of (codes "ptmtrace 1\n0 f 0 1\n") ≡ faulty 2 BadWhy.Fields }
    ensures tray { reading_of (codes "ptmtrace 1\n0 t 1 65536 2\n") ≡ faulty 2 BadWhy.Fields }
    ensures held { reading_of (codes "ptmtrace 1\n0 m 1 24\n0 m 1\n") ≡ faulty 3 BadWhy.Fields }
    ensures not_held { reading_of (codes "ptmtrace 1\n0 f 1 2\n") ≡ faulty 2 BadWhy.Fields }
{}

/// A field that is no number comes before what numbers may be.
fn numbers_come_before_names()
    ensures name { reading_of (codes "ptmtrace 1\n0 m 0 18446744073709551616\n") ≡ faulty 2 BadWhy.Number }
    ensures tray { reading_of (codes "ptmtrace 1\n0 t a 65536\n") ≡ faulty 2 BadWhy.Number }
    ensures held { reading_of (codes "ptmtrace 1\n0 m 1 24\n0 m 1 a\n") ≡ faulty 3 BadWhy.Number }
    ensures not_held { reading_of (codes "ptmtrace 1\n0 r 1 a\n") ≡ faulty 2 BadWhy.Number }
    ensures taken_twice { reading_of (codes "ptmtrace 1\n1 t 1 7\n2 t a 7\n") ≡ faulty 3 BadWhy.Number }
{}

/// A name out of range, and then a tray out of range, come before what earlier lines left.
fn names_and_trays_come_before_what_is_held()
    ensures name_and_tray { reading_of (codes "ptmtrace 1\n0 p 0 65536\n") ≡ faulty 2 BadWhy.Name }
    ensures name_and_not_held { reading_of (codes "ptmtrace 1\n0 f 0\n") ≡ faulty 2 BadWhy.Name }
    ensures name_and_taken_twice { reading_of (codes "ptmtrace 1\n1 t 1 7\n2 t 0 7\n") ≡ faulty 3 BadWhy.Name }
    ensures tray_and_held { reading_of (codes "ptmtrace 1\n0 m 1 24\n0 t 1 65536\n") ≡ faulty 3 BadWhy.Tray }
    ensures tray_and_not_held { reading_of (codes "ptmtrace 1\n0 p 1 65536\n") ≡ faulty 2 BadWhy.Tray }
{}

/// A name that is held, or isn't, comes before the second use of a tray.
fn what_is_held_comes_before_tray_uses()
    ensures held { reading_of (codes "ptmtrace 1\n1 t 1 7\n1 t 1 7\n") ≡ faulty 3 BadWhy.Held }
    ensures not_held { reading_of (codes "ptmtrace 1\n0 m 1 24\n0 p 1 7\n0 p 1 7\n") ≡ faulty 4 BadWhy.NotHeld }
{}

/// The first faulty line is named, whatever the later ones are.
fn the_first_faulty_line_is_named()
    ensures before_another { reading_of (codes "ptmtrace 1\n0 f 1\n0 y\n") ≡ faulty 2 BadWhy.NotHeld }
    ensures before_a_cut_one { reading_of (codes "ptmtrace 1\n0 f 1\n0 m") ≡ faulty 2 BadWhy.NotHeld }
{}

/// Which lines hold a name, and which give it up.
fn lines_hold_names_and_give_them_up()
    ensures of_another_thread { reading_of (codes "ptmtrace 1\n0 m 1 24\n1 f 1\n") ≡ faulty 3 BadWhy.NotHeld }
    ensures by_calloc { reading_of (codes "ptmtrace 1\n0 c 1 1 24\n0 m 1 24\n") ≡ faulty 3 BadWhy.Held }
    ensures by_posix_memalign { reading_of (codes "ptmtrace 1\n0 a 1 64 24\n0 m 1 24\n") ≡ faulty 3 BadWhy.Held }
    ensures by_take { reading_of (codes "ptmtrace 1\n0 t 1 7\n0 m 1 24\n") ≡ faulty 3 BadWhy.Held }
    ensures still_resized { reading_of (codes "ptmtrace 1\n0 m 1 24\n0 r 1 8\n0 m 1 24\n") ≡ faulty 4 BadWhy.Held }
    ensures no_longer_freed { reading_of (codes "ptmtrace 1\n0 m 1 24\n0 f 1\n0 f 1\n") ≡ faulty 4 BadWhy.NotHeld }
    ensures no_longer_posted { reading_of (codes "ptmtrace 1\n0 m 1 24\n0 p 1 7\n0 f 1\n") ≡ faulty 4 BadWhy.NotHeld }
    ensures no_longer_resized_to_0 { reading_of (codes "ptmtrace 1\n0 m 1 24\n0 r 1 0\n0 f 1\n") ≡ faulty 4 BadWhy.NotHeld }
{}

/// A line of each command, with the largest numbers that it takes.
const EACH_COMMAND: &[u8] = b"\
ptmtrace 1
0 m 1 0
0 r 1 18446744073709551615
1 c 65535 3 5
1 a 1 64 100
1 p 1 65535
63 t 1 65535
63 f 1
1 x
";

/// Traces that are read whole.
fn traces_are_read()
    ensures nothing { reading_of (codes "ptmtrace 1\n") ≡ whole 1 [] }
    ensures each_command { reading_of EACH_COMMAND.now ≡ whole 1 (
        record { thread = 0; number = 2; call = Call.Malloc 1 0 }
        ∷ record { thread = 0; number = 3; call = Call.Realloc 1 (2 ^ 64 - 1) }
        ∷ record { thread = 1; number = 4; call = Call.Calloc 65535 3 5 }
        ∷ record { thread = 1; number = 5; call = Call.Align 1 64 100 }
        ∷ record { thread = 1; number = 6; call = Call.Post 1 65535 }
        ∷ record { thread = 63; number = 7; call = Call.Take 1 65535 }
        ∷ record { thread = 63; number = 8; call = Call.Free 1 }
        ∷ record { thread = 1; number = 9; call = Call.Exit }
        ∷ []) }
    // a name is free again behind each line that gives it up, and for another thread
    ensures names_again { IsOk (reading_of (codes "ptmtrace 1\n0 m 1 8\n1 m 1 8\n0 f 1\n0 m 1 8\n0 r 1 0\n0 m 1 8\n0 p 1 0\n0 t 1 0\n")) }
    // a tray may be taken from before it is posted to
    ensures take_first { IsOk (reading_of (codes "ptmtrace 1\n0 t 1 7\n0 p 1 7\n")) }
{}

/// The names of version 2 go on where those of version 1 end.
fn names_are_in_their_version()
    ensures largest_of_1 { IsOk (reading_of (codes "ptmtrace 1\n0 m 65535 24\n")) }
    ensures past_1 { reading_of (codes "ptmtrace 1\n0 m 4294967295 24\n") ≡ faulty 2 BadWhy.Name }
    ensures past_both_in_1 { reading_of (codes "ptmtrace 1\n0 m 4294967296 24\n") ≡ faulty 2 BadWhy.Name }
    ensures largest_of_2 { reading_of (codes "ptmtrace 2\n0 m 4294967295 24\n") ≡ whole 2 (
        record { thread = 0; number = 2; call = Call.Malloc 4294967295 24 } ∷ []) }
    ensures past_2 { reading_of (codes "ptmtrace 2\n0 m 4294967296 24\n") ≡ faulty 2 BadWhy.Name }
    ensures zero_in_2 { reading_of (codes "ptmtrace 2\n0 m 0 24\n") ≡ faulty 2 BadWhy.Name }
    ensures no_number { reading_of (codes "ptmtrace 2\n0 m 18446744073709551616 24\n") ≡ faulty 2 BadWhy.Number }
    ensures tray_in_2 { reading_of (codes "ptmtrace 2\n0 t 65536 65536\n") ≡ faulty 2 BadWhy.Tray }
{}

/// Names above 65,535 are held as all others are.
fn far_names_are_held()
    ensures nothing { reading_of (codes "ptmtrace 2\n") ≡ whole 2 [] }
    ensures held { reading_of (codes "ptmtrace 2\n0 m 65536 24\n0 m 65536 24\n") ≡ faulty 3 BadWhy.Held }
    ensures not_held { reading_of (codes "ptmtrace 2\n0 m 65536 24\n1 f 65536\n") ≡ faulty 3 BadWhy.NotHeld }
    ensures low_bits { reading_of (codes "ptmtrace 2\n0 m 65537 24\n0 f 1\n") ≡ faulty 3 BadWhy.NotHeld }
    ensures again { IsOk (reading_of (codes "ptmtrace 2\n0 m 65536 8\n1 m 65536 8\n0 f 65536\n0 m 65536 8\n0 r 65536 0\n")) }
{}

/// No other first line is a header.
fn versions_are_1_and_2()
    ensures zero { reading_of (codes "ptmtrace 0\n") ≡ faulty 1 BadWhy.Header }
    ensures three { reading_of (codes "ptmtrace 3\n") ≡ faulty 1 BadWhy.Header }
    ensures leading_zero { reading_of (codes "ptmtrace 02\n") ≡ faulty 1 BadWhy.Header }
    ensures blank { reading_of (codes "ptmtrace 2 \n") ≡ faulty 1 BadWhy.Header }
    ensures twelve { reading_of (codes "ptmtrace 12\n") ≡ faulty 1 BadWhy.Header }
    ensures cut { reading_of (codes "ptmtrace 2") ≡ faulty 1 BadWhy.Cut }
{}
