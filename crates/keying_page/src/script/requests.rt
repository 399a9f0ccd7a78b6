//! Part of the script: the requests to the office, and the meaning of its responses.

/// Declares the requests. A keying is sent under its own id, and repeated unchanged until the office has replied.
pub(crate) const REQUESTS: &str = r#"// ---- what the office is asked

const PATIENCE = 120;
const WAITS = [5, 10, 20, 30];

// The status and the text of the office's response; nothing if the connection broke, or if another server responded.
const ask = async (target, body) => {
  const end = new AbortController();
  const timer = setTimeout(() => end.abort(), 1000 * PATIENCE);
  const sent = body === undefined ? {} : {method: 'POST', headers: {'Content-Type': 'application/json'}, body};
  try {
    const answer = await fetch(HERE + target, {...sent, cache: 'no-store', redirect: 'error', signal: end.signal});
    return {status: answer.status, says: await answer.json()};
  } catch {
    return null;
  } finally {
    clearTimeout(timer);
  }
};

// What to do about each refusal, by its number, and about each other answer, by its status.
const AFTER_REFUSAL = {
  2: 'Press Send once more: the batch is sent under a new id.',
  7: 'Compare the number on your pile. If it is right, tell the returning officer.',
  9: 'The ward isn\u2019t being keyed. Tell the returning officer.',
  14: 'The office hasn\u2019t given this batch to your number. Tell the returning officer.',
  15: 'The batch is in another round. Ask for your batches. If it is listed, begin it again.',
  16: 'The office already has your keying of this round. Do nothing.',
  17: 'The batch has another number of papers. Tell the returning officer.',
  18: 'Look at that paper, and correct it.',
};
const AFTER_STATUS = {
  401: 'The code is wrong, or none was sent. Try again, and type your number and your code when the browser asks for them.',
  403: 'This page was opened by an address that the office doesn\u2019t know. Open it by the one you were given.',
  429: 'The code is wrong, and very many wrong codes were sent to the office. Wait a minute, try again, and type your number and your code when the browser asks for them.',
};
const TELL = 'Show this message to the returning officer.';
const NOBODY = 'The office is not responding.';
const LATER = 'Try again in a moment. What you keyed is kept here.';

const isRefusal = (answer) => answer?.status === 409 && Number.isInteger(answer.says?.refusal);
const isFault = (answer) => answer?.status === 503 && Number.isInteger(answer.says?.fault);
// Nobody can see from it whether the office kept what was sent.
const isUnknown = (answer) => !answer || answer.status < 400 || answer.status >= 500;
const isReply = (answer, {batch, round}) => answer?.status === 200 && answer.says?.reply === `batch ${batch} round ${round} keyed`;

// The outcome of a request, in words, and what to do.
const explained = (answer) => {
  if (!answer) return [NOBODY, LATER];
  if (isRefusal(answer)) return [`The office refused it: ${answer.says.text} (refused ${answer.says.refusal}).`, AFTER_REFUSAL[answer.says.refusal] ?? TELL];
  if (isFault(answer)) return [`The office couldn\u2019t do it now (fault ${answer.says.fault}).`, TELL];
  return [`The office answered with ${answer.status}.`, AFTER_STATUS[answer.status] ?? TELL];
};

const isWork = (it) => [it?.batch, it?.ward, it?.size, it?.round].every(Number.isInteger) && Array.isArray(it.columns);

// This clerk's batches, or why they can't be had.
const askWork = async () => {
  const answer = await ask('work');
  const list = answer?.status === 200 && answer.says?.work;
  return Array.isArray(list) && list.every(isWork) ? {list} : {why: explained(answer), waits: isUnknown(answer)};
};

// The names of wards, by their numbers, as far as the office was asked for them.
const wardNames = new Map();

// The names of the candidates of a batch and of its ward, or why they can't be had.
const askNames = async ({batch, ward, columns}) => {
  const answer = await ask(`batches/${batch}/candidates`);
  const list = answer?.status === 200 && answer.says?.candidates;
  if (!Array.isArray(list)) return {why: explained(answer)};
  const names = new Map(list.map(({candidate, name}) => [candidate, name]));
  wardNames.set(ward, shownName(answer.says.name));
  return {candidates: columns.map((number) => ({number, name: shownName(names.get(number))}))};
};

const isKeyed = (says, {batch, round, size, columns}) =>
  says?.batch === batch && Number.isInteger(says.round) && says.round < round && Array.isArray(says.papers)
  && says.papers.length === size && says.papers.every((text) => isMarksText(text, columns));

// What this clerk keyed of a batch, in the clerk's latest earlier round; nothing, if there is none; or why it can't be had.
const askKeyed = async (work) => {
  const answer = work.round === 1 ? null : await ask(`batches/${work.batch}/keyed`);
  if (work.round === 1 || answer?.status === 404) return {};
  return answer?.status === 200 && isKeyed(answer.says, work) ? {keyed: answer.says} : {why: explained(answer)};
};

// A name without marks that change the direction of the text next to it.
const shownName = (name) => String(name ?? '').replace(/[\u202a-\u202e\u2066-\u2069]/g, '');

const bodyOf = ({id, round, rows}) => JSON.stringify({id, round, papers: rows.map((it) => it.text)});

// Sends the draft. Until there is a response, the draft can't be changed: the office may have stored it as it was sent.
// A refusal says that it kept nothing. Any other answer leaves open what was open before.
const send = async () => {
  const sent = draft;
  const wasOpen = sent.sent;
  sent.sent = true;
  save(sent);
  const answer = await ask(`batches/${sent.batch}/keying`, bodyOf(sent));
  if (isReply(answer, sent)) return {kept: answer.says.reply};
  const isOpen = !isRefusal(answer) && (wasOpen || isUnknown(answer));
  sent.sent = isOpen;
  if (isRefusal(answer) && answer.says.refusal === 2) sent.id = newId(sent.batch, sent.round);
  save(sent);
  const why = answer ? explained(answer) : [NOBODY];
  return {why, isOpen, waits: isUnknown(answer), refusal: isRefusal(answer) ? answer.says.refusal : 0};
};

"#;
