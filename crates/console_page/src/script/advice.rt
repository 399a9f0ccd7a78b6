//! Part of the script: what the officer can do about each refusal, fault and status.

/// Declares what each error means, and what to do about it.
pub(crate) const ADVICE: &str = r#"// ---- messages

const AFTER_REFUSAL = {
  1: 'The console sent an invalid id. Report this to whoever maintains the program.',
  2: 'Try again. The order is sent with a new id.',
  3: 'Correct the number. Wards are numbered 1 to 99, candidates 1 to 30, batches 1 to 9999 and tellers 1 to 999. A ward has 1 to 15 seats, '
    + 'and a batch 1 to 500 papers. If a batch differs in round 99, only a third teller can settle it.',
  4: 'Enter a name of at most 120 bytes, without tabs or line breaks.',
  5: 'Correct the ward number, or add the ward first.',
  6: 'If this is the ward you mean, do nothing: it has been added. Otherwise, choose another number.',
  7: 'Correct the batch number, or give out the batch first.',
  8: 'If this is the batch you mean, do nothing: it has been given out. Otherwise, choose another number. Make sure that no pile is given out twice.',
  9: 'It is too early or too late to do this in the ward. Check the next step on the overview.',
  10: 'If this is the candidate you mean, do nothing: the candidate has been added. Otherwise, choose another number, or withdraw the candidate who has it.',
  11: 'Correct the candidate number.',
  12: 'Add the candidates of the ward first.',
  13: 'Choose another teller: the tellers of a batch must all be different.',
  14: 'Correct the teller or the batch number. The list of batches shows who keys each batch.',
  15: 'Key the batch for its current round. The list of batches shows the round.',
  16: 'Do nothing: the office already has this teller\u2019s keying for this round, and it stands.',
  17: 'Count the pile and compare it with the file. A paper is missing or was keyed twice.',
  18: 'Check that paper and correct its line. Key D for a paper that can\u2019t be keyed as numbers.',
  19: 'Do nothing: fewer than two tellers have keyed this round, or two of them agree.',
  20: 'Wait until two keyings of this batch agree.',
  21: 'Correct the batch or paper number. You can judge only papers that were keyed as doubtful.',
  22: 'Do nothing: this paper has a verdict, and it stands.',
  23: 'Accept a paper only if it has a first preference. Otherwise, reject it.',
  24: 'Settle all batches and judge all doubtful papers. Then seal the ward.',
  25: 'The count is finished. Declare the result.',
  26: 'Draw a lot among the tied candidates in front of witnesses. Then record it here.',
  27: 'No lot is needed at this stage. Continue with the next stage.',
  28: 'Choose one of the tied candidates.',
  29: 'Count the remaining stages first.',
  30: 'Do nothing: the batch already has a third teller. If all three keyings differ, have the batch keyed again.',
};

const AFTER_FAULT = {
  101: 'The computer is out of memory. Close other programs, then send the order again.',
  102: 'The file can\u2019t be read or written. Check the free disk space, and close any other program that has the file open. Then send the order again.',
  103: 'The file is damaged. Keep it as it is, and continue with the latest copy (see Going back to a copy in the guide).',
  104: 'An earlier fault closed the office. Stop serve and start it again. Then send the order again.',
  105: 'This file doesn\u2019t contain an office. Check that serve was started with the right file.',
  106: 'This file was made by a later version of the program. Use that version.',
  107: 'The reply couldn\u2019t be printed. The order may have been done: check the overview before you send it again.',
  108: 'This file was made by an earlier version of the program. Run migrate first, as described in the guide.',
  109: 'A file with this name already exists. Choose another name.',
  110: 'The copy or the folder can\u2019t be written. Use a name without a slash, and check the free disk space.',
  111: 'This can\u2019t be done while the office is being served. Stop serve first.',
  112: 'The second record can\u2019t be written, and nothing more is accepted. Stop serve, and start it with a new file after --second. Then send the order again.',
  113: 'The office\u2019s file was removed or replaced, and the office can\u2019t store anything. Don\u2019t stop serve. Fix this first, as described in the guide to refusals and faults (fault 113).',
};

const AFTER_FILE_FAULT = {
  1: 'The first line is wrong. For candidates it must be ward,candidate,name. For a keying it must name the batch, the teller and the candidate '
    + 'numbers, as in paper 12/4,1,2,3. Save the file as CSV (UTF-8).',
  2: 'The line has too many or too few commas. Put a name that contains a comma in double quotes.',
  3: 'Write the number in digits, without leading zeros or spaces. Delete lines that contain only commas.',
  4: 'Number the papers 1, 2, 3 and so on, in order. A paper was left out or keyed twice.',
  5: 'Look for an opening double quote without a closing one.',
  6: 'Save the file as CSV (UTF-8).',
  7: 'The file has too many lines. Delete lines at the end that contain only commas.',
  8: 'The file can\u2019t be read. Choose it again.',
  9: 'The computer is out of memory. Close other programs, then try again.',
  10: 'This file belongs to another batch or another teller. Choose the right file.',
  11: 'This isn\u2019t the expected file. Choose the right one.',
};

const AFTER_STATUS = {
  400: 'The office couldn\u2019t read the request. Report this to whoever maintains the program.',
  401: 'The code is missing or wrong. Reload this page, then enter the name office and the office\u2019s code.',
  403: 'This page was opened at an address that the office doesn\u2019t accept. Open it at 127.0.0.1 and the port that serve uses.',
  404: 'The office doesn\u2019t serve this request. Check that its file of codes has a line for the office. If it has one, report this to whoever maintains the program.',
  413: 'The order is too large for the console. Run it from the command line instead.',
  429: 'The code is wrong, and too many wrong codes were sent. Wait a minute, reload this page, then enter the right code.',
};

const NOBODY = 'The office isn\u2019t responding. Check that serve is running.';

// Returns the line of an order's errors that matters, its numbers, and what to do about it.
const explainedError = (errors) => {
  const line = errors.split('\n').find((it) => /(refused|fault) \d+/.test(it)) ?? errors.split('\n')[0];
  const [, refusal] = /refused (\d+): /.exec(line) ?? [];
  const [, fileFault] = /file fault (\d+)/.exec(line) ?? [];
  const [, record] = / at record (\d+)/.exec(line) ?? [];
  const place = fileFault && record > 0 ? `Check line ${Number(record) + 1} of the file. ` : '';
  const [, fault] = /(?:^|: )fault (\d+): /.exec(line) ?? [];
  if (/^not mended: /.test(line)) return {line, refusal: 0, fault: 0, todo: 'No office was made. Check the orders that you put right, then try again.'};
  const todo = refusal ? AFTER_REFUSAL[refusal] : fileFault ? AFTER_FILE_FAULT[fileFault] : fault ? AFTER_FAULT[fault] : '';
  return {line, refusal: Number(refusal ?? 0), fault: Number(fault ?? 0), todo: todo ? place + todo : 'Look up this message in the guide to refusals and faults.'};
};

// Returns why something couldn't be read, and what to do about it.
const explainedAnswer = (answer) => {
  if (!answer) return NOBODY;
  const {status, says} = answer;
  if (status === 409) return `${said(says.text)} ${AFTER_REFUSAL[says.refusal] ?? ''}`;
  if (status === 503) return `The office reported fault ${says.fault}. ${AFTER_FAULT[says.fault] ?? ''}`;
  return AFTER_STATUS[status] ?? `The office sent an unexpected response (status ${status}). Report this to whoever maintains the program.`;
};

// Returns a text as a sentence.
const said = (text) => `${text.slice(0, 1).toUpperCase()}${text.slice(1)}.`;

"#;
