//! Scripts with what they print, word for word.

use crate::drilled::prints;
use std::alloc::Global;
use std::process::Abort;
use std::test::Fail;
use std::thread::Threads;

// Scripts with what they print and their exit statuses, word for word.
static STORED: [(&str, &str, &str, u8); 42] = [
    (
        "bad_line_is_named",
        "raw\nputt 61\n",
        "refused 16 line 2\n",
        1,
    ),
    (
        "gate_written_00_drops_batch",
        "raw\nput 6161\nstop 9 long 00\n",
        "open ok 6\nstopped\nfinal 0\n",
        0,
    ),
    (
        "gate_written_01_keeps_batch",
        "raw\nput 6161\nstop 9 long 01\n",
        "open ok 6\nstopped\nfinal 1\n6161\n",
        0,
    ),
    (
        "creation_stopped_at_made_byte_00",
        "life\nstop 5 long 00\nlife\n",
        "open stopped\nopen ok 4\nfinal 0\n",
        0,
    ),
    (
        "creation_stopped_at_made_byte_01",
        "life\nstop 5 long 01\nlife\n",
        "open stopped\nopen ok 0\nfinal 0\n",
        0,
    ),
    (
        "empty_commit_makes_no_call",
        "life\nbegin\ncommit 1\ncalls\n",
        "open ok 6\nstarted 1\ncommitted\ncalls 6\nfinal 0\n",
        0,
    ),
    (
        "empty_lines_are_counted",
        "life\n\nbegin 1\n",
        "refused 16 line 3\n",
        1,
    ),
    (
        "key_lengths_checked",
        "life\nbegin\ninsert 1 +z*0 1\ninsert 1 +z*256 1\ninsert 1 +z*255 1\n",
        "open ok 6\nstarted 1\nrefused 3\nrefused 3\ninserted\nfinal 0\n",
        0,
    ),
    (
        "log_of_one_byte_is_unmade",
        "set log 01\nlife\n",
        "open ok 6\nfinal 0\n",
        0,
    ),
    (
        "one_insert_committed",
        "life\nbegin\ninsert 1 a 7\ncommit 1\ncalls\n",
        "open ok 6\nstarted 1\ninserted\ncommitted\ncalls 10\nfinal 1\n61 7\n",
        0,
    ),
    (
        "open_gate_with_nothing_behind",
        "set log 014152494553494d310000100000000000000000000000000000000000000001\nlife\n",
        "open refused 11\nfinal refused 11\n",
        0,
    ),
    (
        "seven_frames_refused",
        "life frames 7\n",
        "open refused 13\nfinal 0\n",
        0,
    ),
    (
        "torn_page_restored_from_image",
        "life\nbegin\ninsert 1 a 7\ncommit 1\nbegin\ninsert 2 x 9\nflush 1\nstop 16 long FF\n",
        "open ok 6\nstarted 1\ninserted\ncommitted\nstarted 2\ninserted\nstopped\nfinal 1\n61 7\n",
        0,
    ),
    (
        "torn_batch_is_overwritten",
        "life\nbegin\ninsert 1 a 7\ncommit 1\nstop 7 long FF\nlife\nbegin\ninsert 1 b 1\ncommit 1\ncalls\n",
        "open ok 6\nstarted 1\ninserted\nstopped\nopen ok 0\nstarted 1\ninserted\ncommitted\ncalls 4\nfinal 1\n62 1\n",
        0,
    ),
    (
        "torn_gate_4d_reads_closed",
        "life\nbegin\ninsert 1 a 7\ncommit 1\nstop 9 long 4D\n",
        "open ok 6\nstarted 1\ninserted\nstopped\nfinal 0\n",
        0,
    ),
    (
        "torn_gate_reads_open",
        "life\nbegin\ninsert 1 a 7\ncommit 1\nstop 9 long 01\n",
        "open ok 6\nstarted 1\ninserted\nstopped\nfinal 1\n61 7\n",
        0,
    ),
    (
        "second_commit_undecided_00",
        "life\nbegin\nbegin\ninsert 1 a 1\ninsert 2 b 2\ncommit 1\ncommit 2\nstop 13 long 00\n",
        "open ok 6\nstarted 1\nstarted 2\ninserted\ninserted\ncommitted\nstopped\nfinal 1\n61 1\n",
        0,
    ),
    (
        "second_commit_undecided_01",
        "life\nbegin\nbegin\ninsert 1 a 1\ninsert 2 b 2\ncommit 1\ncommit 2\nstop 13 long 01\n",
        "open ok 6\nstarted 1\nstarted 2\ninserted\ninserted\ncommitted\nstopped\nfinal 2\n61 1\n62 2\n",
        0,
    ),
    (
        "sixty_fifth_begin_refused",
        "life\nbegin\nbegin\nbegin\nbegin\nbegin\nbegin\nbegin\nbegin\nbegin\nbegin\nbegin\nbegin\nbegin\nbegin\nbegin\nbegin\nbegin\nbegin\nbegin\nbegin\nbegin\nbegin\nbegin\nbegin\nbegin\nbegin\nbegin\nbegin\nbegin\nbegin\nbegin\nbegin\nbegin\nbegin\nbegin\nbegin\nbegin\nbegin\nbegin\nbegin\nbegin\nbegin\nbegin\nbegin\nbegin\nbegin\nbegin\nbegin\nbegin\nbegin\nbegin\nbegin\nbegin\nbegin\nbegin\nbegin\nbegin\nbegin\nbegin\nbegin\nbegin\nbegin\nbegin\nbegin\nbegin\n",
        "open ok 6\nstarted 1\nstarted 2\nstarted 3\nstarted 4\nstarted 5\nstarted 6\nstarted 7\nstarted 8\nstarted 9\nstarted 10\nstarted 11\nstarted 12\nstarted 13\nstarted 14\nstarted 15\nstarted 16\nstarted 17\nstarted 18\nstarted 19\nstarted 20\nstarted 21\nstarted 22\nstarted 23\nstarted 24\nstarted 25\nstarted 26\nstarted 27\nstarted 28\nstarted 29\nstarted 30\nstarted 31\nstarted 32\nstarted 33\nstarted 34\nstarted 35\nstarted 36\nstarted 37\nstarted 38\nstarted 39\nstarted 40\nstarted 41\nstarted 42\nstarted 43\nstarted 44\nstarted 45\nstarted 46\nstarted 47\nstarted 48\nstarted 49\nstarted 50\nstarted 51\nstarted 52\nstarted 53\nstarted 54\nstarted 55\nstarted 56\nstarted 57\nstarted 58\nstarted 59\nstarted 60\nstarted 61\nstarted 62\nstarted 63\nstarted 64\nrefused 12\nfinal 0\n",
        0,
    ),
    (
        "younger_inserter_dies_at_read_gap",
        "life\nbegin\nbegin\nfetch 1 a\ninsert 2 a 1\ninsert 2 a 1\n",
        "open ok 6\nstarted 1\nstarted 2\nabsent\ndie\nrefused 2\nfinal 0\n",
        0,
    ),
    (
        "two_readers_and_a_writer_at_one_gap",
        "life\nbegin\nbegin\nbegin\nbegin\nfetch 2 k\nfetch 3 k\ninsert 4 k 5\ncommit 4\nrollback 4\ninsert 1 k 5\ncommit 2\ninsert 1 k 5\ncommit 3\ninsert 1 k 5\ncommit 1\n",
        "open ok 6\nstarted 1\nstarted 2\nstarted 3\nstarted 4\nabsent\nabsent\ndie\nrefused 2\nrolledback\nblocked lock 2\ncommitted\nblocked lock 3\ncommitted\ninserted\ncommitted\nfinal 1\n6b 5\n",
        0,
    ),
    (
        "scan_locks_end",
        "life\nbegin\nbegin\nscan 1 a z 10\ninsert 2 m 5\ninsert 2 m 5\nrollback 2\n",
        "open ok 6\nstarted 1\nstarted 2\nentries\ndie\nrefused 2\nrolledback\nfinal 0\n",
        0,
    ),
    (
        "older_reader_blocks_until_rollback",
        "life\nbegin\nbegin\ninsert 2 b 5\nfetch 1 a\nrollback 2\ncontinue 2\nfetch 1 a\n",
        "open ok 6\nstarted 1\nstarted 2\ninserted\nblocked lock 2\nmore\nrolledback\nabsent\nfinal 0\n",
        0,
    ),
    (
        "delete_locks_next_key",
        "life\nbegin\ninsert 1 b 4\ninsert 1 d 6\ncommit 1\nbegin\nbegin\ndelete 2 b\nfetch 3 b\nrollback 2\ncontinue 2\nbegin\nfetch 4 b\n",
        "open ok 6\nstarted 1\ninserted\ninserted\ncommitted\nstarted 2\nstarted 3\ndeleted\ndie\nmore\nrolledback\nstarted 4\nfound 4\nfinal 2\n62 4\n64 6\n",
        0,
    ),
    (
        "replies_of_one_user",
        "life\nbegin\ninsert 1 a 1\ninsert 1 a 2\ndelete 1 b\nseek 1 b\nnext 1 a\nseek 1 A\nscan 1 a z 0\ncontinue 1\ncommit 2\ncommit 1\ncommit 1\n",
        "open ok 6\nstarted 1\ninserted\nduplicate\nabsent\nend\nend\nentry 61 1\nentries 61 1\nrefused 1\nrefused 1\ncommitted\nrefused 1\nfinal 1\n61 1\n",
        0,
    ),
    (
        "prev_of_one_user",
        "life\nbegin\nprev 1 a\ninsert 1 b 1\ninsert 1 d 2\ninsert 1 f 3\nprev 1 b\nprev 1 a\nprev 1 c\nprev 1 d\nprev 1 e\nprev 1 z\nprev 1 b+a*1\ndelete 1 d\nprev 1 e\nprev 1 f\nprev 1 +a*0\nprev 1 +a*256\nprev 1 +z*255\ncommit 1\nprev 1 z\nprev 2 z\n",
        "open ok 6\nstarted 1\nend\ninserted\ninserted\ninserted\nend\nend\nentry 62 1\nentry 62 1\nentry 64 2\nentry 66 3\nentry 62 1\ndeleted\nentry 62 1\nentry 62 1\nrefused 3\nrefused 3\nentry 66 3\ncommitted\nrefused 1\nrefused 1\nfinal 2\n62 1\n66 3\n",
        0,
    ),
    (
        "prev_locks_what_it_found_and_the_gap_above",
        "life\nbegin\ninsert 1 c 1\ninsert 1 m 2\ninsert 1 x 3\ncommit 1\nbegin\nbegin\nbegin\nprev 3 m\ninsert 4 k 4\nrollback 4\ninsert 2 d 5\ninsert 2 k 4\ndelete 2 c\ninsert 2 n 6\ninsert 2 b 7\ncommit 3\ninsert 2 k 4\ndelete 2 c\ncommit 2\n",
        "open ok 6\nstarted 1\ninserted\ninserted\ninserted\ncommitted\nstarted 2\nstarted 3\nstarted 4\nentry 63 1\ndie\nrolledback\nblocked lock 3\nblocked lock 3\nblocked lock 3\ninserted\nblocked lock 3\ncommitted\ninserted\ndeleted\ncommitted\nfinal 4\n6b 4\n6d 2\n6e 6\n78 3\n",
        0,
    ),
    (
        "undo_opens_a_gap_once_read",
        "life\nbegin\nbegin\ninsert 1 0 1\ninsert 1 b 2\nfetch 1 a\nrollback 1\ncontinue 1\ninsert 2 a 3\ncommit 2\ncontinue 1\n",
        "open ok 6\nstarted 1\nstarted 2\ninserted\ninserted\nabsent\nmore\nmore\ninserted\ncommitted\nrolledback\nfinal 1\n61 3\n",
        0,
    ),
    (
        "locks_stay_until_the_rollback_ends",
        "life\nbegin\nbegin\ninsert 2 b 1\ninsert 2 d 2\nrollback 2\nfetch 1 d\ncontinue 2\nfetch 1 d\ncontinue 2\nfetch 1 d\n",
        "open ok 6\nstarted 1\nstarted 2\ninserted\ninserted\nmore\nblocked lock 2\nmore\nabsent\nrolledback\nabsent\nfinal 0\n",
        0,
    ),
    (
        "two_losers_one_half_rolled_back",
        "life\nbegin\nbegin\ninsert 1 b 1\ninsert 2 d 2\ninsert 1 f 3\ninsert 2 h 4\nrollback 1\ncontinue 1\nforce\nstop end short 00\nlife\nbegin\nscan 3 a z 9\n",
        "open ok 6\nstarted 1\nstarted 2\ninserted\ninserted\ninserted\ninserted\nmore\nmore\ndone\nopen ok 4\nstarted 3\nentries\nfinal 0\n",
        0,
    ),
    (
        "log_cut_to_111_bytes",
        "set log 014152494553494d3100001000000000000000000000000000000000000000010000004c0000002b0100000000000000010000000000000000000000000000000000000001016100000000000000070000002108000000000000000100000000000000240000000000000000000000\nlife\n",
        "open refused 11\nfinal refused 11\n",
        0,
    ),
    (
        "log_cut_to_112_bytes",
        "set log 014152494553494d3100001000000000000000000000000000000000000000010000004c0000002b010000000000000001000000000000000000000000000000000000000101610000000000000007000000210800000000000000010000000000000024000000000000000000000000\nlife\n",
        "open refused 11\nfinal refused 11\n",
        0,
    ),
    (
        "log_cut_to_1_bytes",
        "set log 01\nlife\n",
        "open ok 6\nfinal 0\n",
        0,
    ),
    (
        "log_cut_to_2_bytes",
        "set log 0141\nlife\n",
        "open refused 11\nfinal refused 11\n",
        0,
    ),
    (
        "log_cut_to_31_bytes",
        "set log 014152494553494d3100001000000000000000000000000000000000000000\nlife\n",
        "open refused 11\nfinal refused 11\n",
        0,
    ),
    (
        "log_cut_to_32_bytes",
        "set log 014152494553494d310000100000000000000000000000000000000000000001\nlife\n",
        "open refused 11\nfinal refused 11\n",
        0,
    ),
    (
        "log_cut_to_36_bytes",
        "set log 014152494553494d3100001000000000000000000000000000000000000000010000004c\nlife\n",
        "open refused 11\nfinal refused 11\n",
        0,
    ),
    (
        "log_cut_to_79_bytes",
        "set log 014152494553494d3100001000000000000000000000000000000000000000010000004c0000002b010000000000000001000000000000000000000000000000000000000101610000000000000007\nlife\n",
        "open refused 11\nfinal refused 11\n",
        0,
    ),
    (
        "failed_first_length_call",
        "life failread 1\nlife\n",
        "open refused 8\nopen ok 6\nfinal 0\n",
        0,
    ),
    (
        "failed_gate_write_00",
        "life fail 9\nbegin\ninsert 1 a 7\ncommit 1\nbegin\nstop end long 00\n",
        "open ok 6\nstarted 1\ninserted\nrefused 8\nrefused 10\nfinal 0\n",
        0,
    ),
    (
        "failed_gate_write_01",
        "life fail 9\nbegin\ninsert 1 a 7\ncommit 1\nbegin\nstop end long 01\n",
        "open ok 6\nstarted 1\ninserted\nrefused 8\nrefused 10\nfinal 1\n61 7\n",
        0,
    ),
    (
        "max_above_32_bits",
        "life max 4294967296\nbegin\n",
        "open ok 6\nstarted 1\nfinal 0\n",
        0,
    ),
];

// The same of stores whose log goes on in the other file, of logs of the first format, and of logs near the greatest LSN.
static OF_TWO_LOGS: [(&str, &str, &str, u8); 17] = [
    (
        "switch_goes_on_in_the_other_log",
        "life\nbegin\ninsert 1 a 7\nswitch\ncommit 1\nswitch\ncalls\nlog\nlife\nbegin\n",
        "open ok 6\nstarted 1\ninserted\nrefused 15\ncommitted\ndone\ncalls 23\nlog 48\nopen ok 0\nstarted 2\nfinal 1\n61 7\n",
        0,
    ),
    (
        "two_switches",
        "life\nbegin\ninsert 1 a 7\ncommit 1\nswitch\nswitch\nbegin\ninsert 2 b 8\ncommit 2\nlife\nswitch\ncalls\nbegin\n",
        "open ok 6\nstarted 1\ninserted\ncommitted\ndone\ndone\nstarted 2\ninserted\ncommitted\nopen ok 0\ndone\ncalls 12\nstarted 3\nfinal 2\n61 7\n62 8\n",
        0,
    ),
    (
        "stop_in_a_second_switch_00",
        "life\nbegin\ninsert 1 a 7\ncommit 1\nswitch\nbegin\ninsert 2 b 8\ncommit 2\nswitch\nstop 35 long 00\nlife\nfetch 1 a\nbegin\n",
        "open ok 6\nstarted 1\ninserted\ncommitted\ndone\nstarted 2\ninserted\ncommitted\nstopped\nopen ok 0\nrefused 1\nstarted 3\nfinal 2\n61 7\n62 8\n",
        0,
    ),
    (
        "old_log_is_switched",
        "set log 014152494553494d3100001000000000000000000000000000000000000000010000004c0000002b01000000000000000100000000000000000000000000000000000000010161000000000000000700000021080000000000000001000000000000002400000000000000000000000000\nlife\n",
        "open ok 13\nfinal 1\n61 7\n",
        0,
    ),
    (
        "old_log_in_the_other_file",
        "set log2 014152494553494d3100001000000000000000000000000000000000000000010000004c0000002b01000000000000000100000000000000000000000000000000000000010161000000000000000700000021080000000000000001000000000000002400000000000000000000000000\nlife\nbegin\ncalls\n",
        "open ok 13\nstarted 2\ncalls 13\nfinal 1\n61 7\n",
        0,
    ),
    (
        "loser_in_a_log_of_the_first_format",
        "set log 014152494553494d3100001000000000000000000000000000000000000000010000002b0000002b01000000000000000100000000000000000000000000000000000000010161000000000000000700\nlife\nlog\nbegin\nredo\n",
        "open ok 17\nlog 48\nstarted 2\nredo 36 1\nfinal 0\n",
        0,
    ),
    (
        "switch_stopped_at_made_byte_00",
        "set log 014152494553494d3100001000000000000000000000000000000000000000010000004c0000002b01000000000000000100000000000000000000000000000000000000010161000000000000000700000021080000000000000001000000000000002400000000000000000000000000\nlife\nstop 12 long 00\nlife\n",
        "open stopped\nopen ok 7\nfinal 1\n61 7\n",
        0,
    ),
    (
        "switch_stopped_at_made_byte_01",
        "set log 014152494553494d3100001000000000000000000000000000000000000000010000004c0000002b01000000000000000100000000000000000000000000000000000000010161000000000000000700000021080000000000000001000000000000002400000000000000000000000000\nlife\nstop 12 long 01\nlife\n",
        "open stopped\nopen ok 0\nfinal 1\n61 7\n",
        0,
    ),
    (
        "greater_generation_is_current",
        "set log 014152494553494d3200001000000000000000000000000200000000000003e800000000000000050000000000000000\nset log2 014152494553494d3200001000000000000000000000000300000000000007d000000000000000090000000000000000\nlife\nbegin\n",
        "open ok 0\nstarted 9\nfinal 0\n",
        0,
    ),
    (
        "two_logs_of_one_generation",
        "set log 014152494553494d32000010000000000000000000000002000000000000000000000000000000010000000000000000\nset log2 014152494553494d32000010000000000000000000000002000000000000006400000000000000010000000000000000\nlife\n",
        "open refused 11\nfinal refused 11\n",
        0,
    ),
    (
        "other_log_with_a_damaged_header",
        "set log 014152494553494d32000010000000000000000000000002000000000000000000000000000000010000000000000000\nset log2 014100494553494d32000010000000000000000000000001000000000000000000000000000000010000000000000000\nlife\n",
        "open refused 11\nfinal refused 11\n",
        0,
    ),
    (
        "log_of_no_generation",
        "set log 014152494553494d32000010000000000000000000000000000000000000000000000000000000010000000000000000\nlife\n",
        "open refused 11\nfinal refused 11\n",
        0,
    ),
    (
        "last_generation_is_not_left",
        "set log 014152494553494d32000010000000003fffffffffffffff000000000000000000000000000000010000000000000000\nlife\nswitch\nbegin\nlife\n",
        "open ok 0\nrefused 6\nrefused 10\nopen ok 0\nfinal 0\n",
        0,
    ),
    (
        "log_based_above_the_greatest_lsn",
        "set log 014152494553494d32000010000000000000000000000001400000000000000100000000000000010000000000000000\nlife\n",
        "open refused 11\nfinal refused 11\n",
        0,
    ),
    (
        "rollback_in_a_full_log",
        "set log 014152494553494d320000100000000000000000000000013fffffffffffff9c00000000000000010000000000000000\nlife\nbegin\ninsert 1 a 7\nrollback 1\ncontinue 1\nbegin\n",
        "open ok 0\nstarted 1\ninserted\nmore\nrefused 7\nrefused 10\nfinal 0\n",
        0,
    ),
    (
        "rollback_in_a_full_log_of_what_is_durable",
        "set log 014152494553494d320000100000000000000000000000013fffffffffffff9c00000000000000010000000000000000\nlife\nbegin\ninsert 1 a 7\nforce\nrollback 1\ncontinue 1\nbegin\nlife\n",
        "open ok 0\nstarted 1\ninserted\ndone\nmore\nrefused 7\nrefused 10\nopen refused 7\nfinal refused 7\n",
        0,
    ),
    (
        "full_log_keeps_what_was_committed",
        "set log 014152494553494d320000100000000000000000000000013fffffffffffff3800000000000000010000000000000000\nlife\nbegin\ninsert 1 a 7\ncommit 1\nbegin\ninsert 2 b 8\nrollback 2\ncontinue 2\nbegin\nlife\nbegin\n",
        "open ok 0\nstarted 1\ninserted\ncommitted\nstarted 2\ninserted\nmore\nrefused 7\nrefused 10\nopen ok 0\nstarted 2\nfinal 1\n61 7\n",
        0,
    ),
];

#[test]
fn scripts_print_their_stored_outputs(rt: HostRuntime) -> Result<(), Fail> {
    each_prints(&rt, rt.alloc(), &STORED)
}

#[test]
fn scripts_of_two_logs_print_their_stored_outputs(rt: HostRuntime) -> Result<(), Fail> {
    each_prints(&rt, rt.alloc(), &OF_TWO_LOGS)
}

// The rows are lent: a proof about a function that names so long a table has all of it at each step.
fn each_prints<R: Abort + Threads + Sync>(
    rt: &R,
    alloc: Global,
    rows: &[(&str, &str, &str, u8)],
) -> Result<(), Fail> {
    for (name, script, want, want_status) in rows {
        assert!(rt;
            prints(rt, alloc, script.as_bytes(), want.as_bytes(), *want_status)?,
            "{name}"
        );
    }
    Ok(())
}
