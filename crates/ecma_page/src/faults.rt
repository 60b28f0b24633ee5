//! The script's fourth part: the faults. Made by `scripts/frame write` from `web/faults.js`.

/// Shows the list of faults.
pub(crate) const FAULTS: &str =
    r#"// The faults: a list that is gone through by keys. The worker hands out the first, and further ones where they are asked for.

class FaultList {
  /** `tells` has what becomes of a choice: `light`, `select`, `further`. */
  constructor(list, button, untold, tells) {
    Object.assign(this, { list, button, untold, tells, faults: [], count: 0, cursor: -1, refusal: null, then: null });
    // An item that is made anew between press and release gets no click.
    list.addEventListener('mouseup', event => this.clicked(event));
    list.addEventListener('keydown', event => this.key(event));
    // By a key: a click goes to the item that is clicked.
    list.addEventListener('focus', () => list.matches(':focus-visible') && this.move(Math.max(0, this.cursor)));
    button.addEventListener('click', () => this.further(from => {
      this.choose(from);
      list.focus();
    }));
  }

  /** Shows the first faults of so many, beside which there are more that the parser does not tell. */
  show(faults, count, more) {
    const refusal = faults.at(-1)?.isRefusal && faults.length < count ? faults.at(-1) : null;
    Object.assign(this, { refusal, count, cursor: -1, then: null });
    this.faults = refusal ? faults.slice(0, -1) : faults;
    this.list.replaceChildren(...this.faults.map((it, index) => this.item(it, index)));
    this.untold.hidden = more === 0;
    this.untold.textContent = `${more} more are not told`;
    this.shownRest();
  }

  /** Why there is no tree stands last, whatever is left out before it. */
  shownRest() {
    const left = this.count - this.faults.length - (this.refusal ? 1 : 0);
    if (this.refusal) this.list.append(this.item(this.refusal, this.count - 1));
    this.button.hidden = left === 0;
    this.button.textContent = `${left} more: show the next`;
    this.list.hidden = this.count === 0;
    this.list.setAttribute('aria-label', `Faults: ${this.count}`);
  }

  /** Shows further faults behind those that are shown. */
  append(from, faults) {
    if (from !== this.faults.length) return;
    if (this.refusal) this.list.lastChild.remove();
    const isWhole = from + faults.length === this.count;
    if (isWhole && this.refusal) faults.at(-1).isRefusal = true;
    if (isWhole) this.refusal = null;
    this.list.append(...faults.map((it, index) => this.item(it, from + index)));
    this.faults = this.faults.concat(faults);
    this.shownRest();
    this.then?.(from);
    this.then = null;
  }

  /** Asks for further faults; `then` is called with the index of the first. */
  further(then = null) {
    this.then = then;
    this.tells.further(this.faults.length);
  }

  item(fault, index) {
    const it = make('li');
    const { line, column } = fault.loc.start;
    Object.assign(it, { id: `fault-${index}`, role: 'option', ariaSelected: false, fault });
    it.append(make('span', 'place', `${line}:${column + 1}`), ' ', make('span', 'severity', fault.severity ?? (fault.isRefusal ? 'refused' : 'fault')), ` ${fault.message} `, make('span', 'place', `[${fault.kind}]`));
    if (fault.note) it.append(make('span', 'note', `${fault.note.loc.start.line}:${fault.note.loc.start.column + 1} ${fault.note.message}`));
    return it;
  }

  /** Goes to an item of the list; the answer is its fault. */
  move(index) {
    const items = this.list.children;
    this.list.querySelector('[aria-selected=true]')?.setAttribute('aria-selected', 'false');
    this.cursor = Math.max(0, Math.min(index, items.length - 1));
    const it = items[this.cursor];
    if (!it) return null;
    it.setAttribute('aria-selected', 'true');
    it.scrollIntoView({ block: 'nearest' });
    this.list.setAttribute('aria-activedescendant', it.id);
    return it.fault;
  }

  choose(index) {
    if (index === this.faults.length && !this.button.hidden) return this.further(from => this.choose(from));
    this.tells.light(this.move(index));
  }

  /** Goes to the next fault or the one before, from any part of the page. Behind the last comes the first. */
  step(by) {
    if (this.count === 0) return;
    const next = Math.max(this.cursor, by < 0 ? 0 : -1) + by;
    const select = index => this.tells.select(this.move(index));
    if (by > 0 && next === this.faults.length && !this.button.hidden) return this.further(select);
    const length = this.list.children.length;
    select((next + length) % length);
  }

  /** Goes to the item of a fault that is told at an offset, where one is. */
  point(offset) {
    const isThere = it => it && it.fault.start <= offset && offset < Math.max(it.fault.end, it.fault.start + 1);
    const items = Array.from(this.list.children);
    const index = isThere(items[this.cursor]) ? -1 : items.findIndex(isThere);
    if (index >= 0) this.move(index);
  }

  clicked({ target, button }) {
    const it = target.closest('li');
    if (it && button === 0 && getSelection().isCollapsed) this.tells.select(this.move(Array.from(this.list.children).indexOf(it)));
  }

  key(event) {
    if (event.ctrlKey || event.metaKey || event.altKey) return;
    const keys = {
      ArrowUp: () => this.choose(this.cursor - 1),
      ArrowDown: () => this.choose(this.cursor + 1),
      Home: () => this.choose(0),
      End: () => this.choose(this.list.children.length - 1),
      Enter: () => this.tells.select(this.move(this.cursor)),
    };
    if (!Object.hasOwn(keys, event.key)) return;
    event.preventDefault();
    keys[event.key]();
  }
}
"#;
